// The listing of a store, as text in a lent buffer. A text that is longer than the buffer is written as far as it fits; the answer is
// the length of the whole text in any case.
#![tactic(auto)]

ghost use Rattle.std.specs.Prelude.{◌≡◌, ◌*◌, ◌≤◌, ◌<◌, true, length};
ghost use Rattle.layout.specs.Words.{Laid, Node, number_of};
ghost use Rattle.lists.specs.Decide.{view_of, sequence_of, sound_of, HeldList};
ghost use Rattle.edits.specs.Edited.{record_in};
ghost use Rattle.writing.specs.Text.{overwritten, Writes, Room};
ghost use Rattle.encoding.specs.Bytes.{words_in};
ghost use Rattle.listing_text.specs.Listing.{record_line, record_lines, list_line, list_lines, lists_from, refused_line, listed_of, listing_of, most_bytes, byte_listing, longest};

use form::Form;
use layout::{Layout, Refusal};
use walks::Store;
use writing::Cursor;

// The most bytes of a store.
pub const MAX_BYTES: usize = 2 * Layout::MAX_WORDS;

// The most bytes of a listing: a line for each list and each record, and the last.
pub const LONGEST: usize = 23 * Layout::MAX_LISTS + 90 * Layout::MAX_NODES + 6;

// The line of the record at position p, in cell c.
fn record_line(out: &mut Cursor<'_>, p: u16, c: u16, rec: &[u16])
    requires { Room out.old.at (record_line p c rec.now) }
    ensures { Writes out.old (record_line p c rec.now) out.new }
{
    out.number(p);
    out.labelled(b" ", c);
    out.spaced(rec);
    out.put(b'\n');
}

// The first line of list k, which has so many records.
fn list_line(out: &mut Cursor<'_>, k: u16, count: u16)
    requires { Room out.old.at (list_line k count) }
    ensures { Writes out.old (list_line k count) out.new }
{
    out.labelled(b"list ", k);
    out.labelled(b" count ", count);
    out.put(b'\n');
}

// The line of a refusal.
fn refused_line(out: &mut Cursor<'_>, refusal: Refusal)
    requires { Room out.old.at (refused_line (number_of refusal)) }
    ensures { Writes out.old (refused_line (number_of refusal)) out.new }
{
    out.labelled(b"refused ", refusal.number());
    out.put(b'\n');
}

// The record in node c, as a part of the lent words.
fn record_of<'a>(s: &Store<'a, u16>, c: u16) -> &'a [u16]
    requires { Node s.now.layout c }
    ensures { result.now ≡ record_in s.now.layout s.now.lent.now c }
{
    let a = s.layout.node(c) + Layout::LINK_WORDS;
    let e = a + s.layout.width as usize;
    &s.lent[a..e]
}

// The lines of the records of list k, which has so many: its cells are met along the forward links.
fn record_lines(out: &mut Cursor<'_>, s: &Store<u16>, k: u16, count: u16)
    requires held { HeldList s.now.layout (view_of s.now.layout s.now.lent.now) k count }
    requires room { Room out.old.at (record_lines s.now.layout s.now.lent.now 0 (sequence_of s.now.layout s.now.lent.now k)) }
    ensures { Writes out.old (record_lines s.now.layout s.now.lent.now 0 (sequence_of s.now.layout s.now.lent.now k)) out.new }
{
    let mut c = k;
    for p in 0..count {
        c = s.cell(c as usize).forward as u16;
        record_line(out, p, c, record_of(s, c));
    }
}

// All lines of list k.
fn list_lines(out: &mut Cursor<'_>, s: &Store<u16>, k: u16)
    requires list { k < s.now.layout.lists }
    requires sound { sound_of s.now.layout s.now.lent.now ≡ true }
    requires room { Room out.old.at (list_lines s.now.layout s.now.lent.now k (sequence_of s.now.layout s.now.lent.now k)) }
    ensures { Writes out.old (list_lines s.now.layout s.now.lent.now k (sequence_of s.now.layout s.now.lent.now k)) out.new }
{
    let count = s.count(k);
    list_line(out, k, count);
    record_lines(out, s, k, count);
}

// The lines of all lists.
fn all_lists(out: &mut Cursor<'_>, s: &Store<u16>)
    requires sound { sound_of s.now.layout s.now.lent.now ≡ true }
    requires room { Room out.old.at (lists_from s.now.layout s.now.lent.now (sequence_of s.now.layout s.now.lent.now) 0 s.now.layout.lists) }
    ensures { Writes out.old (lists_from s.now.layout s.now.lent.now (sequence_of s.now.layout s.now.lent.now) 0 s.now.layout.lists) out.new }
{
    for k in 0..s.layout.lists {
        list_lines(out, s, k);
    }
}

// The listing of an open store: question 6, and the lists.
fn listing_in(out: &mut Cursor<'_>, s: &Store<u16>)
    requires { Room out.old.at (listed_of s.now.layout s.now.lent.now) }
    ensures { Writes out.old (listed_of s.now.layout s.now.lent.now) out.new }
{
    if s.is_sound() {
        all_lists(out, s);
        out.text(b"sound\n");
    } else {
        refused_line(out, Refusal::Unsound);
    }
}

// The listing of any words: questions 1 to 4, and that by the layout.
fn listing_at(out: &mut Cursor<'_>, words: &[u16])
    requires { Room out.old.at (listing_of words.now) }
    ensures { Writes out.old (listing_of words.now) out.new }
{
    match sites::open(words) {
        Err(refusal) => refused_line(out, refusal),
        Ok(l) => listing_in(out, &Store::of(words, l)),
    }
}

// The listing of the lent words.
pub fn listing(words: &[u16], out: &mut [u8]) -> usize
    ensures answer { result ≡ length (listing_of words.now) }
    ensures bytes { out.new ≡ overwritten (listing_of words.now) out.old }
    ensures short { result ≤ longest }
{
    let mut cursor = Cursor { out, at: 0 };
    listing_at(&mut cursor, words);
    cursor.at
}

// The words of the bytes.
fn decode(bytes: &[u8], words: &mut [u16])
    requires { length bytes.now ≡ 2 * length words.old }
    ensures { words.new ≡ words_in bytes.now }
{
    for (i, word) in words.iter_mut().enumerate() {
        *word = u8::word(bytes, i);
    }
}

// The listing of a store in byte form.
pub fn listing_of_bytes(bytes: &[u8], out: &mut [u8]) -> usize
    ensures answer { result ≡ length (byte_listing bytes.now) }
    ensures bytes { out.new ≡ overwritten (byte_listing bytes.now) out.old }
    ensures short { result ≤ longest }
{
    if bytes.len() > MAX_BYTES || bytes.len() % 2 != 0 {
        let mut cursor = Cursor { out, at: 0 };
        refused_line(&mut cursor, Refusal::Size);
        return cursor.at;
    }
    let mut words = [0; Layout::MAX_WORDS];
    let words = &mut words[..bytes.len() / 2];
    decode(bytes, words);
    listing(words, out)
}
