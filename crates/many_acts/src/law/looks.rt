//! What is promised of the blocks that a step looks at.
ghost use Rattle.std.specs.Prelude.{ℕ, Bool, Option};
ghost use Rattle.seize_acts.specs.Acts.Stays.{HeldStay};
ghost use Rattle.run_shows.specs.Given.TablesDeclared.node.Node.{Node};
ghost use Rattle.many_acts.specs.Looks.Looks.{StepsLookAtWhatIsHeld, LookupsLookAtWhatIsHeld, MakingsLookAtTheirOwn};
ghost use Rattle.many_acts.specs.Looks.Sees.{StepsSeeWhatLasts, OwnPairsAreMade};
ghost use Rattle.many_acts.specs.Looks.There.{BlocksAreThere, WordsAreThere, StepsLookAtWhatIsThere};

/// Any callers have calls under way on any maps of one collector, in either mode, and make and end others. Whichever block the next step of one looks at, by its
/// operation or for its value, is there; and unless the step is one of a row of the collector, its caller's open section holds it, or its caller has it, having made
/// it or taken it out of its map, or it is the counter of the map; at a lookup, in either mode, its section
/// holds it. What a section holds keeps its value, and no other block gets its number. So no step looks at a
/// block that was given back, nor at another one than its number named. And who makes a map looks at blocks of its own.
pub fn steps_look_at_what_is_held<K, V, Q>()
    ensures held { (same : K → K → Bool) (asks : Q → K → Bool) (batch_size roots : ℕ) (slot : ℕ → ℕ) → StepsLookAtWhatIsHeld V same asks batch_size roots slot }
    ensures lookups { (same : K → K → Bool) (asks : Q → K → Bool) (batch_size roots : ℕ) (slot : ℕ → ℕ) → LookupsLookAtWhatIsHeld V same asks batch_size roots slot }
    ensures stays { (defers : Node K V → Option ℕ) → HeldStay defers }
    ensures makings { (same : K → K → Bool) (asks : Q → K → Bool) (batch_size roots : ℕ) (slot : ℕ → ℕ) → MakingsLookAtTheirOwn V same asks batch_size roots slot }
{}

/// Each block whose value a step of any call looks at, once its operation is answered and at no row, is held by its caller's section; or it is
/// the call's own pair, with which it goes on, and which its caller has made and has until it is stored or given back. So all of them last until that caller's next step.
pub fn steps_see_what_lasts<K, V, Q>()
    ensures lasts { (same : K → K → Bool) (asks : Q → K → Bool) (batch_size roots : ℕ) (slot : ℕ → ℕ) → StepsSeeWhatLasts V same asks batch_size roots slot }
    ensures own { (same : K → K → Bool) (asks : Q → K → Bool) (batch_size roots : ℕ) (slot : ℕ → ℕ) → OwnPairsAreMade V same asks batch_size roots slot }
{}

/// Where anything is under way, each block that the next step looks at is there, or the step may make it, be it one of a call, of the making or the end of a map, or of a
/// row of the collector, whoever takes it.
pub fn all_steps_look_at_what_is_there<K, V, Q>()
    ensures there { (same : K → K → Bool) (asks : Q → K → Bool) (batch_size roots : ℕ) (slot : ℕ → ℕ) → StepsLookAtWhatIsThere V same asks batch_size roots slot }
{}

/// It is so of any step that may be taken, in any memory; and the words that it names are there, those of slots and roots, too.
pub fn steps_look_at_what_is_there<T, R>()
    ensures blocks { BlocksAreThere T R }
    ensures words { WordsAreThere T R }
{}
