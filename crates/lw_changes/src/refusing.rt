ghost use Rattle.std.specs.Prelude.{◌≡◌};
ghost use Rattle.lw_changes.specs.Refusing.{is_refusal};

use lw_calls::Reply;

/// Whether a reply refuses its call, which then leaves all as it was.
pub fn is_refusal(reply: &Reply) -> bool
    ensures { result ≡ is_refusal reply.now }
{
    match reply {
        Reply::Done
        | Reply::Pen(_)
        | Reply::Outside
        | Reply::Nothing
        | Reply::Layer(_)
        | Reply::Rects(_)
        | Reply::Got(_) => false,
        _ => true,
    }
}
