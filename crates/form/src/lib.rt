// The two forms of a store. Words are lent as they are, or as bytes, two to a word, low byte first; then a word is read as its two bytes,
// and a word store is made as two byte stores, low byte before high. What is written over a form is proved over both.
#![tactic(auto)]

ghost use Rattle.std.specs.Prelude.{◌≡◌, ℕ, ◌+◌, ◌*◌, ◌<◌, ◌≤◌, List, [], ◌∷◌, Bool, length, get_or, take, drop};
ghost use Rattle.stores.specs.declared.Write.{Write};
ghost use Rattle.stores.specs.Stores.{write};
ghost use Rattle.encoding.specs.Form.{FormLaws};
ghost use Rattle.encoding.specs.Bytes as B;
ghost use Rattle.encoding.specs.Words as W;
ghost use Rattle.encoding.proofs.Laws.{byte_laws, word_laws};

// The elements that words are lent as.
pub trait Form: Copy {
    // The words that the elements are; what is left at the end is of none.
    ghost words_in: { List Self → List ℕ };

    // Are the elements whole words?
    ghost whole: { List Self → Bool };

    // The elements after word stores.
    ghost after: { List Write → List Self → List Self };

    // How many words there are.
    fn size(lent: &[Self]) -> usize
        ensures { result ≡ length (words_in lent.now) };

    fn is_whole(lent: &[Self]) -> bool
        ensures { result ≡ whole lent.now };

    // Word i.
    fn word(lent: &[Self], i: usize) -> u16
        requires { i < length (words_in lent.now) }
        ensures { result ≡ get_or (words_in lent.now) i 0 };

    // Word i becomes v.
    fn put(lent: &mut [Self], i: usize, v: u16)
        requires { i < length (words_in lent.old) }
        ensures { lent.new ≡ after (write i v ∷ []) lent.old };

    // The words from word a on, as a part.
    fn from(lent: &[Self], a: usize) -> &[Self]
        requires { a ≤ length (words_in lent.now) }
        ensures { words_in result.now ≡ drop a (words_in lent.now) };

    // The n words from word a on, as a part.
    fn part(lent: &[Self], a: usize, n: usize) -> &[Self]
        requires { a + n ≤ length (words_in lent.now) }
        ensures { words_in result.now ≡ take n (drop a (words_in lent.now)) };

    // The elements of a word: one, where a form gives no other number.
    const ELEMENTS: usize = 1;

    // What each form must prove of itself.
    ghost laws: { FormLaws words_in after };
}

impl Form for u16 {
    ghost words_in = { W.words_in };

    ghost whole = { W.whole };

    ghost after = { W.after };

    fn size(words: &[u16]) -> usize {
        words.len()
    }

    fn is_whole(words: &[u16]) -> bool {
        true
    }

    fn word(words: &[u16], i: usize) -> u16 {
        words[i]
    }

    fn put(words: &mut [u16], i: usize, v: u16) {
        words[i] = v;
    }

    fn from(words: &[u16], a: usize) -> &[u16] {
        &words[a..]
    }

    fn part(words: &[u16], a: usize, n: usize) -> &[u16] {
        let e = a + n;
        &words[a..e]
    }

    ghost laws = { word_laws };
}

impl Form for u8 {
    const ELEMENTS: usize = 2;

    ghost words_in = { B.words_in };

    ghost whole = { B.whole };

    ghost after = { B.after };

    fn size(bytes: &[u8]) -> usize {
        bytes.len() / Self::ELEMENTS
    }

    fn is_whole(bytes: &[u8]) -> bool {
        bytes.len() % Self::ELEMENTS == 0
    }

    fn word(bytes: &[u8], i: usize) -> u16 {
        u16::from_le_bytes([bytes[2 * i], bytes[2 * i + 1]])
    }

    fn put(bytes: &mut [u8], i: usize, v: u16) {
        let [low, high] = v.to_le_bytes();
        bytes[2 * i] = low;
        bytes[2 * i + 1] = high;
    }

    fn from(bytes: &[u8], a: usize) -> &[u8] {
        let at = Self::ELEMENTS * a;
        &bytes[at..]
    }

    fn part(bytes: &[u8], a: usize, n: usize) -> &[u8] {
        let at = Self::ELEMENTS * a;
        let e = at + Self::ELEMENTS * n;
        &bytes[at..e]
    }

    ghost laws = { byte_laws };
}

#[cfg(test)]
mod tests {
    use super::*;

    // No contract speaks of that of u16, which the trait gives.
    #[test]
    fn elements_of_a_word(rt: HostRuntime) {
        assert_eq!(rt; u16::ELEMENTS, 1);
        assert_eq!(rt; u8::ELEMENTS, 2);
    }
}
