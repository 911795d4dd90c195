//! Hosts whose processors load and store at mapped pages are one world without mappings.
ghost use Rattle.std.specs.Prelude.{ℕ, List};
ghost use Rattle.shm_mapping.specs.Deaths.{AreTurns, Dies, IsTurn, LivesAsOne, OthersSawNothing, Turn, first_life, lived};
ghost use Rattle.shm_mapping.specs.Example.{PlaysSo, held_clear, held_clear_answers, held_clear_own, held_clear_plain, held_hand, held_hand_answers, held_hand_own, held_hand_plain};
ghost use Rattle.shm_mapping.specs.Hosts.{HostEvent};
ghost use Rattle.shm_mapping.specs.Programs.{AllMappedHold, RunsAsOne, SitesRun, hosts, joined_world};
ghost use Rattle.shm_mapping.specs.Mapped.{Mapped};
ghost use Rattle.shm_mapping.specs.Verdicts.{Keeps};
ghost use Rattle.shm_model.specs.Memory.{Coherent, Legal};
ghost use Rattle.shm_model.specs.Message.{Envelope};
ghost use Rattle.shm_model.specs.Site.{Site};
ghost use Rattle.shm_model.specs.World.{IsOpening, Opening};

/// Whatever hosts do, there is a run of the world without mappings in which each processor's load and store is one of its site, at its
/// place in the list. It has the same answers, the same envelopes, and the machines' memory for the bytes of what is mapped to write.
pub fn programs_run_as_one_world()
    ensures { (o : Opening) (events : List HostEvent) → IsOpening o → RunsAsOne o events }
{}

/// Each load of any processor gives the last store of any processor or site to its place, or 0 (Li and Hudak 1989, §2).
pub fn processors_share_one_memory()
    ensures legal { (o : Opening) (events : List HostEvent) → IsOpening o → Legal o (hosts o events).account }
    ensures coherent { (o : Opening) (events : List HostEvent) → IsOpening o → Coherent (joined_world (hosts o events)) }
{}

/// What the sites have of it, and so their journals, is a run too. The stores of a mapping come where the mapping is given up, and no
/// envelope differs.
pub fn sites_run_beside_what_is_mapped()
    ensures { (o : Opening) (events : List HostEvent) → IsOpening o → SitesRun o events }
{}

/// A site has the right to each page that its machine maps, and a page that is mapped to write is mapped by one host.
pub fn what_is_mapped_is_kept()
    ensures { (o : Opening) (events : List HostEvent) → IsOpening o → AllMappedHold (hosts o events) }
{}

/// A machine that carries out the verdict on an envelope, and only then hands it to its site, keeps the site's access as great as what is
/// mapped then: whatever the envelope is, invented ones too.
pub fn verdicts_keep_what_is_mapped()
    ensures { (sites me : ℕ) (site : Site) (e : Envelope) (mapped : List Mapped) → Keeps sites me site e mapped }
{}

/// A machine that dies loses an end of what it did, never a middle. The premise: it brought all that its processors changed before it gave
/// anything up. Then the hosts go on, through any number of deaths, as the one world in which its processors' accesses since then were
/// never made. Each load that isn't lost gives the last store that isn't lost, and other hosts were answered what they are answered there.
pub fn a_dead_machine_loses_an_end()
    ensures one_world { (o : Opening) (turns : List Turn) → IsOpening o → AreTurns o (first_life o) turns → LivesAsOne o (lived o turns) }
    ensures legal { (o : Opening) (turns : List Turn) → IsOpening o → AreTurns o (first_life o) turns → Legal o (lived o turns).hosts.account }
    ensures unseen { (o : Opening) (turns : List Turn) (s : ℕ) (later : List HostEvent) → IsOpening o → AreTurns o (first_life o) turns
        → IsTurn (lived o turns) (Dies s later) → OthersSawNothing o (lived o turns) s later }
{}

/// Two worked examples of all definitions together: a Hand is held while a page is mapped to write, a Clear while it is mapped to read.
pub fn what_is_held_is_late()
    ensures hand { PlaysSo held_hand held_hand_answers held_hand_plain held_hand_own }
    ensures clear { PlaysSo held_clear held_clear_answers held_clear_plain held_clear_own }
{}
