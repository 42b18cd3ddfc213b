// The reader for the printer: the lent words, a list and the next position in one value. It hands out each record of the list
// once, in order, then empty parts. No function asks anything of its caller.
#![tactic(auto)]

ghost use Rattle.std.specs.Prelude.{◌≡◌, ◌+◌, ◌*◌};
ghost use Rattle.calls.specs.Calls.{read_words, read_start};
ghost use Rattle.reader.specs.Reader.{next_at, next_place};

#[derive(Clone, Copy)]
pub struct Reader<'a> {
    pub words: &'a [u16],
    pub list: u16,
    pub at: u16,
}

// The part of a reader that moves: the list and the next position.
#[derive(Clone, Copy)]
pub struct Place {
    pub list: u16,
    pub at: u16,
}

impl Place {
    // The place behind this one. The last position stays: no list has a record there.
    pub fn step(self) -> Place
        ensures { result ≡ next_place self }
    {
        Place {
            at: self.at.saturating_add(1),
            ..self
        }
    }
}

// A reader at the list's first record.
pub fn over<'a>(words: &'a [u16], list: u16) -> Reader<'a>
    ensures { (result.words ≡ words.entry) × (result.list ≡ list) × (result.at ≡ 0) }
{
    Reader { words, list, at: 0 }
}

// The record that the reader hands out: a part of the lent words, empty behind the last record and if refused.
pub fn hand_out<'a>(r: Reader<'a>) -> &'a [u16]
    ensures { (result.now ≡ read_words r.entry.words.now r.entry.list r.entry.at)
        × ((result.ref_ptr.0 ≡ r.entry.words.ref_ptr.0)
        × (result.ref_ptr.1 ≡ read_start r.entry.words.now r.entry.list r.entry.at * 2 + r.entry.words.ref_ptr.1)) }
{
    axle_store::read(r.words, r.list, r.at)
}

// The reader behind it: the same words and list, the position stepped.
pub fn next<'a>(r: Reader<'a>) -> Reader<'a>
    ensures { (result.words ≡ r.entry.words) × (result.list ≡ r.entry.list) × (result.at ≡ next_at r.entry.at) }
{
    let Place { list, at } = Place {
        list: r.list,
        at: r.at,
    }
    .step();
    Reader { list, at, ..r }
}

// The same for callers with plain words: what a reader at this place hands out.
pub fn handed(words: &[u16], list: u16, at: u16) -> &[u16]
    ensures { (result.now ≡ read_words words.now list at)
        × ((result.ref_ptr.0 ≡ words.entry.ref_ptr.0)
        × (result.ref_ptr.1 ≡ read_start words.now list at * 2 + words.entry.ref_ptr.1)) }
{
    hand_out(Reader { words, list, at })
}
