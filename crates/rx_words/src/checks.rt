ghost use Rattle.std.specs.Prelude.{◌≡◌, string_bytes};
ghost use Rattle.std.specs.List.{list_all};
ghost use Rattle.rx_words.specs.Reading.{is_usual};

// Whether `clap` reads each word as the commands do.
pub(crate) fn are_usual(words: &[String]) -> bool
    ensures { result ≡ list_all (λ word. is_usual (string_bytes word)) words.now }
{
    words.iter().all(|word| is_usual(word.as_str()))
}

// Whether `clap` reads the word as the commands do: it would take an empty word and `-` for operands, `--` for the end of
// the options, and `--stats=` for a name. No command has options of one hyphen.
fn is_usual(word: &str) -> bool
    ensures { result ≡ is_usual word.now }
{
    match word.as_bytes() {
        [] => false,
        [b'-', second, _, ..] => *second == b'-' && word != "--stats=",
        [first, ..] => *first != b'-',
    }
}
