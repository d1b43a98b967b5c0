/// The status of a response.
#[derive(Clone, Copy, PartialEq, Eq)]
pub enum Status {
    /// 200: what was asked is answered.
    Ok,
    /// 400: the form of the request is at fault.
    BadRequest,
    /// 404: nothing is found at the path.
    NotFound,
    /// 405: what is found at the path takes another method.
    MethodNotAllowed,
    /// 409: the book refuses what was asked.
    Conflict,
    /// 411: the length of the body isn't given as it has to be.
    LengthRequired,
    /// 413: the body is too long.
    PayloadTooLarge,
    /// 500: the disk failed.
    InternalServerError,
    /// 503: there was no memory.
    ServiceUnavailable,
}

/// The type of the body of a response.
#[derive(Clone, Copy, PartialEq, Eq)]
pub enum Media {
    /// An object of JSON.
    Json,
    /// The text of the answer to a question.
    Plain,
    /// The bytes of a shipment.
    Octets,
}

/// The line of a head that not every response has.
#[derive(Clone, Copy, PartialEq, Eq)]
pub enum Extra {
    /// There is none.
    Nothing,
    /// The place in the list that the answer speaks of.
    BookRow { at: u32 },
    /// The method that is taken: POST where `post`, and else GET.
    Allow { post: bool },
}

/// The head of a response, without the length of its body.
#[derive(Clone, Copy, PartialEq, Eq)]
pub struct Head {
    pub status: Status,
    pub media: Media,
    pub extra: Extra,
    /// Whether the connection ends behind the response.
    pub last: bool,
}
