//! A law of the texts of redirections.
ghost use Rattle.redirection.specs.Law.{TextIsOfOneRedirection};

/// A text is that of one redirection at most, so a client is sent to one node and slot, in one way.
pub fn a_text_is_of_one_redirection()
    ensures { TextIsOfOneRedirection }
{}
