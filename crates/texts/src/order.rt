ghost use Rattle.std.specs.Prelude.{◌≡◌};
ghost use Rattle.texts.specs.Order.{before};

// Whether `a` stands strictly before `b`: byte by byte, a prefix before its extension.
pub fn precedes(a: &[u8], b: &[u8]) -> bool
    ensures { result ≡ before a.now b.now }
{
    a < b
}
