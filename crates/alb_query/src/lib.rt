//! Questions about polynomials, answered by a right table: whether a polynomial is zero in the relatively free algebra, and if
//! it is not, its normal form.
#![tactic(auto)]

mod answers;
pub mod laws;
mod reply;

pub use answers::answer;
pub use reply::Reply;
