// Why a question about a scope tree is refused.
ghost use Rattle.scope.specs.Refusals.{refusal_number};
ghost use Rattle.std.specs.Prelude.{◌≡◌};

#[derive(Clone, Copy, PartialEq, Eq)]
pub enum QueryRefusal {
    // The node is no expression of the body.
    NoExpression = 21,
    // No scope has the number.
    NoScope = 23,
}

impl QueryRefusal {
    // Not `From`: the call says which number.
    pub fn number(self) -> u8
        ensures is_the_refusals_number { result ≡ refusal_number self }
    {
        self as u8
    }
}
