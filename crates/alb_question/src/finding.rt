use alb_query::Reply;
use alb_trace::Proof;

/// What is found for a question.
#[derive(Drop)]
pub enum Finding {
    /// The answer to a polynomial.
    Answered(Reply),
    /// The same, with what shows it.
    Proved(Reply, Proof),
    /// The dimensions, which the table has.
    OfDimensions,
    /// The products, which the table has.
    OfProducts,
}
