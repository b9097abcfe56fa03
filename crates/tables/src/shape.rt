// The shape of a table and of a list.
ghost use Rattle.std.specs.Prelude.{◌≡◌};
ghost use Rattle.machine.specs.Table.{has_shape};

// At most 2,048 slots of three words.
pub fn is_table(words: usize) -> bool
    ensures { result ≡ has_shape 6144 words }
{
    has_shape(6144, words)
}

// At most 16 steps of three words.
pub fn is_list(words: usize) -> bool
    ensures { result ≡ has_shape 48 words }
{
    has_shape(48, words)
}

fn has_shape(most: usize, words: usize) -> bool
    ensures { result ≡ has_shape most words }
{
    words.is_multiple_of(3) && words <= most
}
