//! Laws of all journals, over the definitions of this crate. Nothing is computed: each call states a theorem, by its clauses.
ghost use Rattle.st_events.specs.LegalEvents.{TellOfEvents};
ghost use Rattle.st_events.specs.Laws.{HaveSoundWorlds, GrowByEvents, HaveLegalPrefixes, KeepThePast, LoseNothing, TellOfLaunches};
ghost use Rattle.st_events.specs.Laws.{TellOfRetires, CountEvents, PayForLaunches, KeepWords, JudgeByLaunches};

/// What holds of all journals, however long, of every program and all sizes.
pub fn laws_of_journals()
    ensures grow { GrowByEvents }
    ensures prefixes { HaveLegalPrefixes }
    ensures events { TellOfEvents }
    ensures sound { HaveSoundWorlds }
    ensures past { KeepThePast }
    ensures launches { TellOfLaunches }
    ensures retires { TellOfRetires }
    ensures counts { CountEvents }
    ensures charge { PayForLaunches }
    ensures words { KeepWords }
    ensures judges { JudgeByLaunches }
    ensures pool { LoseNothing }
{}
