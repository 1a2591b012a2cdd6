/// What input a script stands in.
#[derive(Clone, Copy, Debug, PartialEq, Eq)]
pub enum Form {
    /// A script alone.
    Plain,
    /// A script, a line `order`, and the order's task numbers to the end.
    Ordered,
    /// A script, a line `report`, and a report to the end.
    Audited,
}
