/// The first word of a line of a show that stands in no scene.
#[derive(Clone, Copy, Debug, PartialEq, Eq)]
pub enum ShowVerb {
    Display,
    Scene,
    Drag,
    ToFront,
    ToBack,
    /// `endscene`, or the first word of a script's line: lines with it stand in scenes alone.
    InScenes,
}
