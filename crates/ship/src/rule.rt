// The rules that checks 9, 23, 10 and 11 or 18 hold a house to.
#[derive(Clone, Copy)]
pub enum Rule {
    EndsAndHeight,
    SetInSides,
    RaisedQuarterdeck,
    Follows,
}
