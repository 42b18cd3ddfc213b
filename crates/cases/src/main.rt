// Runs a script of calls on one store and prints their outcomes; tests/model recomputes each line.
//
// The script is read from standard input, as 16-bit words, low byte first. Its entries:
//
//     1 n v           the store has n words, each v (at most 32,100 words)
//     2 a v           word a becomes v
//     3 a m v1 .. vm  m words from a on
//     4 L N P         format          prints 'format L N P = NUMBER', then the words or their checksum
//     5               check           prints 'check = NUMBER'
//     6 k             length          prints 'length k = NUMBER LENGTH'
//     7 k p           read            prints 'read k p = NUMBER:' and the record's words
//     8 k p c m v1 .. vm a            insert of the record v1 .. vm (at most 64 words) from cell c on, allowance a
//                                     prints 'insert k p c m a = ANSWER', then the words or their checksum
//     9 k p a         delete          prints 'delete k p a = ANSWER', then the same
//     10 a            recover         prints 'told = NUMBER STORES', 'recover a = ANSWER', then the same
//     11 k p c v b w n u1 .. un       all courses of one call on the store, which is left as it is (at most 64 words)
//                                     prints 'courses k p c v b w n = DIGEST'
//     12 k p c m n v1 .. vn a         insert of several records from cell c on, allowance a: m words in all (at most 32,100), which
//                                     are v1 .. vn over and over (n is not 0)
//                                     prints 'told = NUMBER FIRST LAST STORES', 'insert_several k p c m a = ANSWER', then the words or
//                                     their checksum
//     13 c            mark_worn       prints 'mark_worn c = ANSWER', then the words or their checksum
//
// The courses of operation 11: the delete at position p of list k, if c is 0, else the insert of the record v there from cell c on;
// cut after 0 to 7 stores; then word b altered to w, and each word from 8 on, one at a time, to each of u1 .. un; then a recovery
// cut after any number of the stores that a whole one makes, a second one cut after any number of the rest, and a whole one. The
// digest depends on every answer, on what is told before each recovery, and on the words that each course leaves.
//
// What is told is told of the call with full allowance, before it is made. An ANSWER is 'done', 'stopped' or 'refused' and its number. Words
// outside the store are not stored. An unknown operation, an entry that is cut short, a record or records that are too long end the run with
// the line 'bad script'. The last line is 'end'.
#![tactic(auto)]

ghost use Rattle.std.specs.Prelude.{◌≡◌, ◌*◌, ◌<◌, ◌≤◌, length, IfOk, IfSome};

use calls::{Answer, Figures};
use printing::{Ending, Row, read_full};
use std::io::{self, Read, Write};
use stores::Outcome;

// The most words of a store and of several records.
const MOST: usize = 32100;

// The most words of one record, of a store that is printed, and of one whose courses are run.
const FEW: usize = 64;

// The most bytes of a script.
const SCRIPT: usize = 1048576;

// The most bytes that are read of it at a time.
const PIECE: usize = 16384;

// Room for the words of a script. With so many zeros in its own body `main` is not proved.
fn word_buffer() -> [u16; SCRIPT / 2]
    ensures { 524288 ≡ length result }
{
    [0; SCRIPT / 2]
}

// Where a call stands: at a position of a list.
#[derive(Clone, Copy)]
struct Place {
    list: u16,
    position: u16,
}

// The courses of operation 11.
#[derive(Clone, Copy)]
struct Course<'a> {
    place: Place,
    start: u16,
    record: u16,
    altered: u16,
    value: u16,
    values: &'a [u16],
}

// An entry of the script.
#[derive(Clone, Copy)]
enum Entry<'a> {
    Fill {
        words: u16,
        value: u16,
    },
    Put {
        at: u16,
        value: u16,
    },
    PutAll {
        at: u16,
        values: &'a [u16],
    },
    Format {
        lists: u16,
        nodes: u16,
        width: u16,
    },
    Check,
    Length {
        list: u16,
    },
    Read {
        place: Place,
    },
    Insert {
        place: Place,
        start: u16,
        record: &'a [u16],
        allowance: u16,
    },
    Delete {
        place: Place,
        allowance: u16,
    },
    Recover {
        allowance: u16,
    },
    Courses(Course<'a>),
    InsertSeveral {
        place: Place,
        start: u16,
        words: u16,
        given: &'a [u16],
        allowance: u16,
    },
    MarkWorn {
        cell: u16,
    },
}

// The entry that the words begin with, and the words behind it. There is none if its operation is unknown, it is cut short, or a record
// or records are too long.
fn parse(script: &[u16]) -> Option<(Entry<'_>, &[u16])>
    ensures { IfSome result (λ read. length read.1.now < length script.now) }
{
    match *script {
        [1, words, value, ref rest @ ..] => Some((Entry::Fill { words, value }, rest)),
        [2, at, value, ref rest @ ..] => Some((Entry::Put { at, value }, rest)),
        [3, at, m, ref rest @ ..] => {
            let (values, rest) = rest.split_at_checked(m as usize)?;
            Some((Entry::PutAll { at, values }, rest))
        }
        [4, lists, nodes, width, ref rest @ ..] => {
            Some((
                Entry::Format {
                    lists,
                    nodes,
                    width,
                },
                rest,
            ))
        }
        [5, ref rest @ ..] => Some((Entry::Check, rest)),
        [6, list, ref rest @ ..] => Some((Entry::Length { list }, rest)),
        [7, list, position, ref rest @ ..] => {
            let place = Place { list, position };
            Some((Entry::Read { place }, rest))
        }
        [8, list, position, start, m, ref rest @ ..] if m as usize <= FEW => {
            let place = Place { list, position };
            let (record, rest) = rest.split_at_checked(m as usize)?;
            let (&allowance, rest) = rest.split_first()?;
            Some((
                Entry::Insert {
                    place,
                    start,
                    record,
                    allowance,
                },
                rest,
            ))
        }
        [9, list, position, allowance, ref rest @ ..] => {
            let place = Place { list, position };
            Some((Entry::Delete { place, allowance }, rest))
        }
        [10, allowance, ref rest @ ..] => Some((Entry::Recover { allowance }, rest)),
        [
            11,
            list,
            position,
            start,
            record,
            altered,
            value,
            n,
            ref rest @ ..,
        ] => {
            let place = Place { list, position };
            let (values, rest) = rest.split_at_checked(n as usize)?;
            let course = Course {
                place,
                start,
                record,
                altered,
                value,
                values,
            };
            Some((Entry::Courses(course), rest))
        }
        [12, list, position, start, words, n, ref rest @ ..] if words as usize <= MOST && n != 0 =>
            {
                let place = Place { list, position };
                let (given, rest) = rest.split_at_checked(n as usize)?;
                let (&allowance, rest) = rest.split_first()?;
                Some((
                    Entry::InsertSeveral {
                        place,
                        start,
                        words,
                        given,
                        allowance,
                    },
                    rest,
                ))
            }
        [13, cell, ref rest @ ..] => Some((Entry::MarkWorn { cell }, rest)),
        _ => None,
    }
}

// A number that depends on all that was mixed in, in order.
#[derive(Clone, Copy)]
struct Digest(u64);

impl Digest {
    fn mix(&mut self, x: u16) {
        self.0 = (self.0 % 4294967291 * 65599 + x as u64) % 4294967291;
    }

    fn mix_words(&mut self, words: &[u16]) {
        for x in words {
            self.mix(*x);
        }
    }

    fn mix_answer(&mut self, answer: Answer) {
        let (kind, n) = match answer {
            Ok(Outcome::Done(n)) => (1, n),
            Ok(Outcome::Stopped(n)) => (2, n),
            Err(refusal) => (3, refusal.number()),
        };
        self.mix(kind);
        self.mix(n);
    }
}

// The words of a small store, the checksum of a larger one.
fn print_store(out: &mut impl Write, words: &[u16]) -> io::Result<()> {
    if words.len() <= FEW {
        return writeln!(out, "words ={}", Row(words));
    }
    let mut checksum = Digest(0);
    checksum.mix_words(words);
    writeln!(out, "checksum = {}", checksum.0)
}

// How a call that stores ended, and what it left.
fn print_ending(out: &mut impl Write, answer: Answer, words: &[u16]) -> io::Result<()> {
    writeln!(out, " = {}", Ending(answer))?;
    print_store(out, words)
}

// A word of the store becomes v, if it is there.
fn put(words: &mut [u16], at: usize, value: u16) {
    if let Some(word) = words.get_mut(at) {
        *word = value;
    }
}

// A recovery, and what is told of it.
fn recover_mixed(words: &mut [u16], allowance: u16, digest: &mut Digest) {
    let needed = axle_store::recover_stores(words);
    digest.mix(calls::number(&needed));
    digest.mix(calls::told(needed));
    digest.mix_answer(axle_store::recover(words, allowance));
}

// The words become a copy of others.
fn copy(words: &mut [u16], others: &[u16]) {
    for (word, other) in words.iter_mut().zip(others) {
        *word = *other;
    }
}

// The end of a course: recoveries cut after a and after b stores, and a whole one.
fn recoveries(found: &[u16], words: &mut [u16], a: u16, b: u16, digest: &mut Digest) {
    copy(words, found);
    recover_mixed(words, a, digest);
    recover_mixed(words, b, digest);
    recover_mixed(words, u16::MAX, digest);
    digest.mix_words(words);
}

// All recoveries of the words found: a first one cut after any number of the stores that a whole one makes, a second one cut after any
// number of the rest.
fn all_recoveries(found: &[u16], words: &mut [u16], digest: &mut Digest) {
    let whole = calls::told(axle_store::recover_stores(found));
    for a in 0..=whole {
        for b in 0..=whole - a {
            recoveries(found, words, a, b, digest);
        }
    }
}

impl Course<'_> {
    // The call, on the words.
    fn call(&self, words: &mut [u16], allowance: u16) -> Answer {
        let Place { list, position } = self.place;
        if self.start == 0 {
            axle_store::delete(words, list, position, allowance)
        } else {
            axle_store::insert(words, list, position, self.start, &[self.record], allowance)
        }
    }

    // The call cut after some stores, word b altered, and word `at`.
    fn find(
        &self,
        store: &[u16],
        found: &mut [u16],
        allowance: u16,
        at: usize,
        value: u16,
    ) -> Answer {
        copy(found, store);
        let answer = self.call(found, allowance);
        put(found, self.altered as usize, self.value);
        put(found, at, value);
        answer
    }

    // All courses on the store.
    fn digest(&self, store: &[u16], found: &mut [u16], words: &mut [u16]) -> Digest {
        let mut digest = Digest(0);
        for allowance in 0..8 {
            for at in 8..store.len() {
                for value in self.values {
                    digest.mix_answer(self.find(store, found, allowance, at, *value));
                    all_recoveries(found, words, &mut digest);
                }
            }
        }
        digest
    }
}

// Operation 1: so many words, or all if there are fewer, get the value. The answer is how many.
fn fill(store: &mut [u16], words: usize, value: u16) -> usize
    ensures { result ≤ length store.old }
{
    let n = store.len().min(words);
    for word in &mut store[..n] {
        *word = value;
    }
    n
}

// Operation 3.
fn put_all(words: &mut [u16], at: usize, values: &[u16]) {
    if let Some(part) = words.get_mut(at..) {
        copy(part, values);
    }
}

// Operation 4.
#[inline(never)]
fn format(
    out: &mut impl Write,
    words: &mut [u16],
    lists: u16,
    nodes: u16,
    width: u16,
) -> io::Result<()> {
    let answer = axle_store::format(words, lists, nodes, width);
    let number = calls::number(&answer);
    writeln!(out, "format {lists} {nodes} {width} = {number}")?;
    print_store(out, words)
}

// Operation 5.
#[inline(never)]
fn check(out: &mut impl Write, words: &[u16]) -> io::Result<()> {
    let number = calls::number(&axle_store::check(words));
    writeln!(out, "check = {number}")
}

// Operation 6.
#[inline(never)]
fn length_of(out: &mut impl Write, words: &[u16], list: u16) -> io::Result<()> {
    let answer = axle_store::length(words, list);
    let number = calls::number(&answer);
    writeln!(out, "length {list} = {number} {}", calls::told(answer))
}

// Operation 7.
#[inline(never)]
fn read(out: &mut impl Write, words: &[u16], place: Place) -> io::Result<()> {
    let Place { list, position } = place;
    let answer = axle_store::read_number(words, list, position);
    let record = Row(axle_store::read(words, list, position));
    writeln!(out, "read {list} {position} = {answer}:{record}")
}

// Operation 8.
#[inline(never)]
fn insert(
    out: &mut impl Write,
    words: &mut [u16],
    place: Place,
    start: u16,
    record: &[u16],
    allowance: u16,
) -> io::Result<()> {
    let Place { list, position } = place;
    let m = record.len();
    write!(out, "insert {list} {position} {start} {m} {allowance}")?;
    let answer = axle_store::insert(words, list, position, start, record, allowance);
    print_ending(out, answer, words)
}

// Operation 9.
#[inline(never)]
fn delete(out: &mut impl Write, words: &mut [u16], place: Place, allowance: u16) -> io::Result<()> {
    let Place { list, position } = place;
    write!(out, "delete {list} {position} {allowance}")?;
    let answer = axle_store::delete(words, list, position, allowance);
    print_ending(out, answer, words)
}

// Operation 10.
#[inline(never)]
fn recover(out: &mut impl Write, words: &mut [u16], allowance: u16) -> io::Result<()> {
    let needed = axle_store::recover_stores(words);
    let number = calls::number(&needed);
    writeln!(out, "told = {number} {}", calls::told(needed))?;
    write!(out, "recover {allowance}")?;
    let answer = axle_store::recover(words, allowance);
    print_ending(out, answer, words)
}

// Operation 11.
#[inline(never)]
fn courses(out: &mut impl Write, store: &[u16], course: Course<'_>) -> io::Result<()> {
    if store.len() > FEW {
        return Ok(());
    }
    let Course {
        place,
        start,
        record,
        altered,
        value,
        values,
    } = course;
    let Place { list, position } = place;
    let n = values.len();
    let mut found = [0; FEW];
    let mut words = [0; FEW];
    let digest = course
        .digest(store, &mut found[..store.len()], &mut words[..store.len()])
        .0;
    writeln!(
        out,
        "courses {list} {position} {start} {record} {altered} {value} {n} = {digest}"
    )
}

// The words become those that are given, over and over.
fn repeat(words: &mut [u16], given: &[u16]) {
    for (word, next) in words.iter_mut().zip(given.iter().cycle()) {
        *word = *next;
    }
}

// Operation 12.
#[inline(never)]
fn insert_several(
    out: &mut impl Write,
    words: &mut [u16],
    place: Place,
    start: u16,
    m: u16,
    given: &[u16],
    allowance: u16,
) -> io::Result<()> {
    let Place { list, position } = place;
    let mut room = [0; MOST];
    let Some(records) = room.get_mut(..m as usize) else {
        return Ok(());
    };
    repeat(records, given);
    let told = axle_store::insert_several_figures(words, list, position, start, records);
    let number = calls::number(&told);
    let Figures {
        first,
        last,
        stores,
    } = calls::foretold(told);
    writeln!(out, "told = {number} {first} {last} {stores}")?;
    write!(
        out,
        "insert_several {list} {position} {start} {m} {allowance}"
    )?;
    let answer = axle_store::insert_several(words, list, position, start, records, allowance);
    print_ending(out, answer, words)
}

// Operation 13.
#[inline(never)]
fn mark_worn(out: &mut impl Write, words: &mut [u16], cell: u16) -> io::Result<()> {
    write!(out, "mark_worn {cell}")?;
    let answer = axle_store::mark_worn(words, cell);
    print_ending(out, answer, words)
}

// What the entry does to the store, which has the first n words, and what it prints. The answer is how many words the store has then.
// (What prints is not inlined here, where its locals would be zeroed for each entry.)
fn perform(out: &mut impl Write, entry: Entry<'_>, store: &mut [u16], n: usize) -> io::Result<usize>
    requires { n ≤ length store.old }
    ensures { IfOk result (λ m. m ≤ length store.old) }
{
    let words = &mut store[..n];
    let printed = match entry {
        Entry::Fill { words, value } => return Ok(fill(store, words as usize, value)),
        Entry::Put { at, value } => {
            put(words, at as usize, value);
            return Ok(n);
        }
        Entry::PutAll { at, values } => {
            put_all(words, at as usize, values);
            return Ok(n);
        }
        Entry::Format {
            lists,
            nodes,
            width,
        } => format(out, words, lists, nodes, width),
        Entry::Check => check(out, words),
        Entry::Length { list } => length_of(out, words, list),
        Entry::Read { place } => read(out, words, place),
        Entry::Insert {
            place,
            start,
            record,
            allowance,
        } => insert(out, words, place, start, record, allowance),
        Entry::Delete { place, allowance } => delete(out, words, place, allowance),
        Entry::Recover { allowance } => recover(out, words, allowance),
        Entry::Courses(course) => courses(out, words, course),
        Entry::InsertSeveral {
            place,
            start,
            words: m,
            given,
            allowance,
        } => insert_several(out, words, place, start, m, given, allowance),
        Entry::MarkWorn { cell } => mark_worn(out, words, cell),
    };
    printed?;
    Ok(n)
}

// The words of the bytes, low byte first.
fn decode(bytes: &[u8], words: &mut [u16]) {
    for (word, pair) in words.iter_mut().zip(bytes.chunks_exact(2)) {
        *word = u16::from_le_bytes([pair[0], pair[1]]);
    }
}

// Reads words, low byte first, until there is room for no more or the input ends; the answer is how many bytes were read.
fn read_words(input: &mut impl Read, words: &mut [u16]) -> io::Result<usize>
    ensures { IfOk result (λ n. n ≤ 2 * length words.old) }
{
    let mut bytes = [0; PIECE];
    let mut at = 0;
    while at < words.len() {
        let part = &mut words[at..];
        let some = part.len().min(PIECE / 2);
        let got = read_full(input, &mut bytes[..2 * some])?;
        decode(&bytes[..got], part);
        if got < 2 * some {
            return Ok(2 * at + got);
        }
        at += some;
    }
    Ok(2 * at)
}

// The entries, one after the other, on a store that has no words at first. The answer is whether they are all there is.
fn run(out: &mut impl Write, script: &[u16]) -> io::Result<bool> {
    let mut script = script;
    let mut store = [0; MOST];
    let mut n = 0;
    while let Some((entry, rest)) = parse(script) {
        n = perform(out, entry, &mut store, n)?;
        script = rest;
    }
    Ok(script.is_empty())
}

fn main(rt: HostRuntime) -> io::Result<()> {
    let mut words = word_buffer();
    let n = read_words(&mut rt.stdin(), &mut words)?;
    let out = &mut io::writer(&rt);
    if !run(out, &words[..n / 2])? || n % 2 != 0 {
        writeln!(out, "bad script")?;
    }
    writeln!(out, "end")
}
