//! The law that a written text reads back as the problem.
ghost use Rattle.instance_text.specs.ReadBack.{TextsAreReadBack};

/// States that the text of a problem spells the problem in the format for its kind. The next number of the
/// problem read is the one after the last stop, and a problem in CVRPLIB's format has one vehicle per customer.
pub fn texts_are_read_back()
    ensures { TextsAreReadBack }
{}
