ghost use Rattle.std.specs.Prelude.{◌≡◌};
ghost use Rattle.texts.specs.Names.{is_dots, is_name, is_target, lacks};

// Whether a text is one or two dots.
fn is_dots(text: &[u8]) -> bool
    ensures { result ≡ is_dots text.now }
{
    matches!(text, [b'.'] | [b'.', b'.'])
}

// Whether a byte stands nowhere in a text.
fn lacks(text: &[u8], byte: u8) -> bool
    ensures { result ≡ lacks byte text.now }
{
    !text.contains(&byte)
}

// Whether a text may be a node's name.
pub fn is_name(text: &[u8]) -> bool
    ensures { result ≡ is_name text.now }
{
    matches!(text.len(), 1..=255) && !is_dots(text) && lacks(text, 0x00) && lacks(text, 0x2F)
}

// Whether a text may be a link's target.
pub fn is_target(text: &[u8]) -> bool
    ensures { result ≡ is_target text.now }
{
    matches!(text.len(), 1..=4096) && lacks(text, 0x00)
}
