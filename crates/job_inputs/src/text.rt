// Texts of answers.
ghost use Rattle.std.specs.Prelude.{◌≡◌};
ghost use Rattle.job_inputs.specs.Answer.{text_bytes};

/// What is written. A text that does not depend on the input takes no memory.
#[derive(Drop)]
pub enum Text {
    /// One that is always the same.
    Fixed(&'static str),
    /// One that was made.
    Made(String),
    /// One that was made of bytes.
    Bytes(Vec<u8>),
}

impl Text {
    /// Its bytes.
    pub fn bytes(&self) -> &[u8]
        ensures { result.now ≡ text_bytes self.now }
    {
        match self {
            Text::Fixed(text) => text.as_bytes(),
            Text::Made(text) => text.as_bytes(),
            Text::Bytes(bytes) => bytes,
        }
    }
}
