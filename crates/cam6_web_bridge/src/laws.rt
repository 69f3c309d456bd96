//! Laws of bridges. Each is the contract of a function that does nothing.
ghost use Rattle.cam6_web_bridge.specs.Laws.{HostIsToldTheTexts};

use crate::pages::Page;

/// A host at the other end of two streams receives the texts that a bridge hands over, in order,
/// each with its LF. The answers that the page receives are the lines that the host writes, in
/// order.
pub fn a_host_is_told_the_texts<P: Page>()
    ensures law { HostIsToldTheTexts P.speaking }
{}
