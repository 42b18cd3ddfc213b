// The stores of insert and delete, made in what is lent, in either form: a record and its links, records one behind the other, and the links
// of a member and zeros over its record.
#![tactic(auto)]

ghost use Rattle.std.specs.Prelude.{◌≡◌, ◌*◌, ◌/◌, ◌<◌, length, take};
ghost use Rattle.stores.specs.Stores.{outcome_of};
ghost use Rattle.layout.specs.Words.{tail_words, size_of};
ghost use Rattle.lists.specs.Lists.{KeepsWorn};
ghost use Rattle.edits.specs.Edits.{insert_writes, chain_from, delete_writes, Placed, Room};

use form::Form;
use layout::Layout;
use requests::Site;
use stores::Outcome;
use walks::Store;

// Makes the stores of an insert, the record and then the links, up to the allowance.
pub fn insert_at<E: Form>(
    lent: &mut [E],
    l: Layout,
    list: u16,
    t: Site,
    rec: &[E],
    allowance: u16,
) -> Outcome
    requires placed { Placed l list t }
    requires given { length (E.words_in rec.now) ≡ tail_words l }
    requires exact { length (E.words_in lent.old) ≡ size_of l }
    ensures outcome { result ≡ outcome_of (insert_writes l list t (E.words_in rec.now)) allowance }
    ensures lent { lent.new ≡ E.after (take allowance (insert_writes l list t (E.words_in rec.now))) lent.old }
{
    let first = l.node(t.cell) + Layout::LINK_WORDS;
    let Outcome::Done(n) = runs::put_row(lent, first, rec, allowance) else {
        return Outcome::Stopped(allowance);
    };
    let links = edits::insert_links(l, list, t);
    let Outcome::Done(m) = runs::run(lent, &links, allowance - n) else {
        return Outcome::Stopped(allowance);
    };
    Outcome::Done(n + m)
}

// Makes the stores of several inserts, one record after another from the first site on, up to the allowance. Worn nodes are passed over.
pub fn insert_all<E: Form>(
    lent: &mut [E],
    l: Layout,
    list: u16,
    first: Site,
    records: &[E],
    allowance: u16,
) -> Outcome
    requires room { Room l (E.words_in lent.old) list first (length (E.words_in records.now) / l.width) }
    requires some { 0 < length (E.words_in records.now) }
    requires whole { length (E.words_in records.now) ≡ length (E.words_in records.now) / l.width * l.width }
    ensures outcome { result ≡ outcome_of (chain_from l (E.words_in lent.old) list first (length (E.words_in records.now) / l.width) (E.words_in records.now)) allowance }
    ensures lent { lent.new ≡ E.after (take allowance (chain_from l (E.words_in lent.old) list first (length (E.words_in records.now) / l.width) (E.words_in records.now))) lent.old }
    ensures worn { KeepsWorn l (E.words_in lent.old) (E.words_in lent.new) }
{
    let width = usize::from(l.width);
    let count = E::size(records) / width;
    let mut t = first;
    let mut made: u16 = 0;
    for i in 0..count {
        let rec = E::part(records, i * width, width);
        let Outcome::Done(n) = insert_at(lent, l, list, t, rec, allowance - made) else {
            return Outcome::Stopped(allowance);
        };
        made += n;
        if i + 1 < count {
            t = sites::next_site(&Store::of(lent, l), t);
        }
    }
    Outcome::Done(made)
}

// Makes the stores of a delete, the links and then zeros over the record, up to the allowance.
pub fn delete_at<E: Form>(lent: &mut [E], l: Layout, list: u16, t: Site, allowance: u16) -> Outcome
    requires placed { Placed l list t }
    requires exact { length (E.words_in lent.old) ≡ size_of l }
    ensures outcome { result ≡ outcome_of (delete_writes l list t) allowance }
    ensures lent { lent.new ≡ E.after (take allowance (delete_writes l list t)) lent.old }
{
    let links = edits::delete_links(l, list, t);
    let Outcome::Done(n) = runs::run(lent, &links, allowance) else {
        return Outcome::Stopped(allowance);
    };
    let row = l.node(t.cell) + Layout::LINK_WORDS;
    let size = l.node_words() - Layout::LINK_WORDS;
    let zeros = [0u16; Layout::MAX_WIDTH];
    let Outcome::Done(m) = runs::put_row(lent, row, &zeros[..size], allowance - n) else {
        return Outcome::Stopped(allowance);
    };
    Outcome::Done(n + m)
}
