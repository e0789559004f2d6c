// Names that no text may declare.
ghost use Rattle.std.specs.Prelude.{◌≡◌, bytes_eq};
ghost use Rattle.std.specs.List.{list_any};
ghost use Rattle.class_table.specs.Names.{is_built_in, is_reserved};

/// Whether the bytes are one of these words.
pub fn is_among(words: &[&[u8]], bytes: &[u8]) -> bool
    ensures { result ≡ list_any (λ word. bytes_eq bytes.now word.now) words.now }
{
    words.iter().any(|word| bytes == *word)
}

/// Whether the name is built in.
pub fn is_built_in(name: &[u8]) -> bool
    ensures { result ≡ is_built_in name.now }
{
    is_among(
        &[
            b"int",
            b"bool",
            b"super",
            b"Lock",
            b"Thread",
            b"Optional",
            b"Exception",
            b"print",
            b"Requires",
            b"Ensures",
            b"Exsures",
            b"Invariant",
            b"Assert",
            b"Fold",
            b"Unfold",
            b"Unfolding",
            b"Predicate",
            b"Pure",
            b"Acc",
            b"Implies",
            b"Old",
            b"Result",
            b"Level",
            b"MustTerminate",
            b"MustRelease",
            b"MayJoin",
            b"WaitLevel",
        ],
        name,
    )
}

/// Whether the name begins with two underscores.
pub fn is_reserved(name: &[u8]) -> bool
    ensures { result ≡ is_reserved name.now }
{
    match name {
        [first, second, ..] => *first == b'_' && *second == b'_',
        _ => false,
    }
}
