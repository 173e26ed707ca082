// A lent slice with the next place to write to; each method moves that place on. What does not fit is left out.
ghost use Rattle.std.specs.Prelude.{◌∷◌, []};
ghost use Rattle.text.specs.Put.{Put};

#[derive(Drop)]
pub struct Page<'a> {
    pub bytes: &'a mut [u8],
    pub at: usize,
}

impl Page<'_> {
    #[tactic(auto, using(crate::proofs::page::Written::with_room, crate::proofs::page::Written::without_room))]
    pub(crate) fn put_byte(&mut self, b: u8)
        ensures { Put self.old self.new (b ∷ []) }
    {
        if self.at < self.bytes.len() {
            self.bytes[self.at] = b;
            self.at += 1;
        }
    }

    pub fn put(&mut self, text: &[u8])
        ensures { Put self.old self.new text.now }
    {
        for b in text {
            self.put_byte(*b);
        }
    }
}
