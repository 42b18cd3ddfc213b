// What format stores, made in what is lent: the head, the headers, then 0.
#![tactic(auto)]

ghost use Rattle.std.specs.Prelude.{◌≡◌};
ghost use Rattle.stores.specs.Stores.{in_row};
ghost use Rattle.layout.specs.Words.{formatted, Laid};

use form::Form;
use layout::Layout;

// Writes the words of a formatted store.
pub fn fill<E: Form>(lent: &mut [E], l: Layout)
    requires { Laid l (E.words_in lent.old) }
    ensures { lent.new ≡ E.after (in_row 0 (formatted l)) lent.old }
{
    runs::put_row(lent, 0, &l.head(), u16::MAX);
    for k in 0..l.lists {
        runs::put_row(lent, l.header(k), &Layout::empty_header(k), u16::MAX);
    }
    for i in l.nodes_at()..l.size() {
        E::put(lent, i, 0);
    }
}
