// What a text is written from.
ghost use Rattle.std.specs.Prelude.{length};
ghost use Rattle.question_text.specs.Writing.{Started};

// The bytes of an accepted sheet, and where its first entries start.
#[derive(Clone, Copy)]
pub struct Source<'a> {
    pub sheet: &'a [u8],
    pub starts: &'a [u32],
    pub ghost started: { Started sheet.now starts.now (length starts.now) },
}
