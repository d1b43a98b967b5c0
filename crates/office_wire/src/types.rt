use book_words::{Ask, Question};

/// What is wrong with the form of a request.
#[derive(Clone, Copy, PartialEq, Eq)]
pub enum Bad {
    /// The head isn't one, is too long, or has too many headers.
    Head,
    /// The body is coded for its transfer.
    Coding,
    /// The length of the body isn't a number of 1 to 10 digits, or is given twice and differs.
    Length,
    /// The body is longer than a body may be.
    Large,
    /// The input ended before the whole body.
    Short,
    /// Nothing is found at the path.
    Path,
    /// What is found at the path takes another method: POST where `post`, and else GET.
    Method { post: bool },
    /// The length of the body isn't given.
    NoLength,
    /// The body isn't an act of a desk.
    Body,
}

/// What is found at the path of a request.
#[derive(Clone, Copy, PartialEq, Eq)]
pub enum Route {
    /// Acts, which are posted.
    Acts,
    /// The answer to a question, which is got.
    Question(Question),
}

/// What a request asks.
#[derive(Clone, Copy, PartialEq, Eq)]
pub enum OfficeAsk {
    /// An act of a desk, or a question.
    Ask(Ask),
    /// Nothing: the form of the request is at fault.
    Bad(Bad),
    /// There was no memory to read the act in its body.
    NoMemory,
}

/// A request.
#[derive(Clone, Copy, PartialEq, Eq)]
pub struct Framed {
    /// How many bytes it has.
    pub taken: usize,
    pub what: OfficeAsk,
    /// Whether the connection ends behind the response.
    pub last: bool,
}

/// What bytes begin with.
#[derive(Clone, Copy, PartialEq, Eq)]
pub enum Frame {
    /// A request, or one that is at fault.
    Whole(Framed),
    /// It isn't decided yet: more bytes have to come.
    More,
    /// No request begins before the end of the input.
    Nothing,
}
