// Writes fields into lent bytes, one after the other.
ghost use Rattle.std.specs.Prelude.{◌≡◌, ◌≤◌, [], ◌∷◌, length};

// The lent bytes (there is no heap), and the index of the next field. Each field that is put moves the pen on.
#[derive(Drop)]
pub(crate) struct Pen<'a> {
    out: &'a mut [u8],
    at: usize,
    ghost within: { at ≤ length out.now },
}

impl<'a> Pen<'a> {
    ghost use Rattle.writers.specs.Fields.{Fits, Wrote};

    // At the first byte.
    pub(crate) fn over(out: &'a mut [u8]) -> Pen<'a>
        ensures lent { result.out.ghost_name ≡ out.entry.ghost_name }
        ensures bytes { result.out.now ≡ out.old }
        ensures at { result.at ≡ 0 }
    {
        Pen { out, at: 0 }
    }

    // The index of the next field.
    pub(crate) fn place(&self) -> usize
        ensures { result ≡ self.now.at }
    {
        self.at
    }

    // A byte.
    pub(crate) fn put_byte(&mut self, byte: u8)
        requires { Fits self.old (byte ∷ []) }
        ensures { Wrote self.old (byte ∷ []) self.new }
    {
        self.out[self.at] = byte;
        self.at += 1;
    }

    // Bytes as they stand.
    pub(crate) fn put_bytes(&mut self, bytes: &[u8])
        requires { Fits self.old bytes.now }
        ensures { Wrote self.old bytes.now self.new }
    {
        let next = self.at + bytes.len();
        self.out[self.at..next].copy_from_slice(bytes);
        self.at = next;
    }
}
