// Records that say what they describe byte by byte: those of the head, parts and signs.
ghost use Rattle.std.specs.Prelude.{◌≡◌, ℕ, List};

pub trait Record: Copy {
    // What the bytes of a record describe.
    ghost described: { List ℕ → Self };

    fn from_bytes(bytes: &[u8]) -> Self
        ensures { result ≡ described bytes.now };
}
