// An accepted book: its bytes, with the proof that the check accepts them.
ghost use Rattle.std.specs.Prelude.{◌≡◌};
ghost use Rattle.book.specs.Book.{book_refusal};

// A book that the check accepts. `Book::check` gives one of bytes that it accepts.
#[derive(Clone, Copy)]
pub struct Book<'a> {
    pub bytes: &'a [u8],
    pub ghost accepted: { book_refusal bytes.now ≡ 0 },
}
