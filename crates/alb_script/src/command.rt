use alb_lex::Token;
use alb_poly::Poly;

/// What a line of a script asks for.
#[derive(Drop)]
pub enum Command {
    /// Nothing: the line holds blanks alone, or a comment.
    Blank,
    /// The field of this number of elements.
    Field(u64),
    /// The generators: the tokens of their text, and the end place of the line.
    Generators(Vec<Token>, u32),
    /// An identity, over the letters a to z.
    Identity(Poly),
    /// The end of the problem.
    Build,
    /// A question about a polynomial.
    Polynomial(Poly),
    /// A question about a polynomial whose answer is given with its evidence.
    Prove(Poly),
    /// The dimensions of the table.
    Dimensions,
    /// The products of the table.
    Table,
    /// A claim about a polynomial, whose evidence follows.
    Claim(Poly),
    /// To wait for the table of this degree, which is 1 to the total degree.
    Await(u32),
    /// The end of the script.
    Quit,
}
