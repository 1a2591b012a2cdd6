ghost use Rattle.lw_ports.specs.Sets.{AskedByClass, ClassLaws};

/// Laws of sets of message classes, which do nothing: a window asks for the messages whose class its set
/// has, and what the empty set, that of one message and that of two sets have.
pub fn laws_of_classes()
    ensures asked { AskedByClass }
    ensures classes { ClassLaws }
{}
