ghost use Rattle.honest_line.specs.Honest.{MovesJoin, MovedIsHonest};
ghost use Rattle.honest_line.specs.Trust.{DialoguesAreTrustworthy, NothingForeignIsHeard, UnsaidAreTrustworthy};

/// Moves join: a list that passes over a line, and another from where the first ends, are one list,
/// with the losses of both. This function does nothing: its contract is the law.
pub fn moves_join()
    ensures { MovesJoin }
{}

/// What passed from at most 32 waiting answers is honest. This function does nothing: its contract
/// is the law.
pub fn moved_is_honest()
    ensures { MovedIsHonest }
{}

/// A host may be trusted over every honest line: its record is true, memory is safe, `G` goes out
/// once at most, and its end has its cause. This function does nothing: its contract is the law.
pub fn dialogues_are_trustworthy()
    ensures { DialoguesAreTrustworthy }
{}

/// A host whose last key was never sent may be trusted as one over a line that lost this key. This
/// function does nothing: its contract is the law.
pub fn unsaid_are_trustworthy()
    ensures { UnsaidAreTrustworthy }
{}

/// Over an honest line a host hears no character that no loss explains: where it has heard one, the line
/// changed it or made it up. This function does nothing: its contract is the law.
pub fn foreign_is_never_lost()
    ensures { NothingForeignIsHeard }
{}
