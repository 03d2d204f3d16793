//! What holds of every change.
ghost use Rattle.dns_changes.specs.Laws.{ChangeLeads, ChangeIsOne};

/// The change between two versions can be applied to the one and gives the other, and there is at most one.
pub fn change_law()
    ensures leads { ChangeLeads }
    ensures one { ChangeIsOne }
{}
