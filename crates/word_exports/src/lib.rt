// Read on lent words, under a name that C and Rust link: for the tests and the benchmarks, since read is not exported. The archive
// libaxle.a has it not.
#![tactic(auto)]

ghost use Rattle.std.specs.Prelude.{◌≡◌};
ghost use Rattle.calls.specs.Calls.{read_words};
ghost use Rattle.word_exports.specs.Codes.{part_code};

// 65,536 and the record's first word, or 0 for an empty part.
#[unsafe(no_mangle)]
pub extern "C" fn words_read(words: &[u16], list: u16, position: u16) -> u32
    ensures { result ≡ part_code (read_words words.now list position) }
{
    match axle_store::read(words, list, position) {
        [] => 0,
        [first, ..] => 65536 + *first as u32,
    }
}
