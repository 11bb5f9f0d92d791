//! Laws of what expressions give at a position, and start rules at the front of an input.
ghost use Rattle.std.specs.Prelude.{◌≡◌, ℕ, ◌<◌, ◌≤◌, ◌++◌, List, [], length};
ghost use Rattle.pegread.specs.Pattern.{Pattern, Rule};
ghost use Rattle.pegread.specs.PegViews.{rules_of};
ghost use Rattle.gramcheck.specs.Grammar.{Grammar, IsSoundGrammar};
ghost use Rattle.gramcheck.specs.Outcome.{Event, Outcome, Gives, RuleGives};
ghost use Rattle.gramcheck.specs.Printing.{Prints};
ghost use Rattle.gramcheck.specs.Rising.{Rise};
ghost use Rattle.pegnodes.specs.Within.{StandsIn};

/// States that an expression gives at most one outcome at a position, and looks equally far each time.
pub fn one_outcome()
    ensures { (rules : List Rule) (x : List ℕ) (e : Pattern) (p k j : ℕ) (o c : Outcome) →
        Gives rules x e p o k → Gives rules x e p c j → (o ≡ c) × (k ≡ j) }
{}

/// States that a start rule gives at most one outcome.
pub fn one_outcome_of_start()
    ensures { (rules : List Rule) (start : ℕ) (x : List ℕ) (k j : ℕ) (o c : Outcome) →
        RuleGives rules start x o k → RuleGives rules start x c j → (o ≡ c) × (k ≡ j) }
{}

/// States that the positions of a success's events stand in order, between where it begins and where it ends, and it
/// ends within the input.
pub fn events_rise()
    ensures { (rules : List Rule) (x : List ℕ) (e : Pattern) (p q k : ℕ) (events : List Event) →
        p ≤ length x → Gives rules x e p (Outcome.Takes q events) k → Rise p q events × (q ≤ length x) }
{}

/// Says that an expression that may not print leaves no event wherever it succeeds.
pub fn silent_leaves_no_event()
    ensures { (rules : List Rule) (x : List ℕ) (e : Pattern) (p q k : ℕ) (events : List Event) →
        (Prints rules e → ⊥) → Gives rules x e p (Outcome.Takes q events) k → events ≡ [] }
{}

/// States that the positions of the events of a start rule's success stand in order, and it ends within the input.
pub fn events_rise_of_start()
    ensures { (rules : List Rule) (start : ℕ) (x : List ℕ) (q k : ℕ) (events : List Event) →
        RuleGives rules start x (Outcome.Takes q events) k → Rise 0 q events × (q ≤ length x) }
{}

/// States that an outcome of an expression that did not look at the input's last byte holds on every input that begins
/// with this one.
pub fn longer_input()
    ensures { (rules : List Rule) (x y : List ℕ) (e : Pattern) (p k : ℕ) (o : Outcome) →
        p < length x → k < length x → Gives rules x e p o k → Gives rules (x ++ y) e p o k }
{}

/// States that an outcome of a start rule that did not look at the input's last byte holds on every input that begins
/// with this one.
pub fn longer_input_of_start()
    ensures { (rules : List Rule) (start : ℕ) (x y : List ℕ) (k : ℕ) (o : Outcome) →
        k < length x → RuleGives rules start x o k → RuleGives rules start (x ++ y) o k }
{}

/// States that an outcome of an expression that did not look at the last byte of a prefix of the input holds on that
/// prefix alone.
pub fn shorter_input()
    ensures { (rules : List Rule) (x y : List ℕ) (e : Pattern) (p k : ℕ) (o : Outcome) →
        k < length x → Gives rules (x ++ y) e p o k → Gives rules x e p o k }
{}

/// States that an outcome of a start rule that did not look at the last byte of a prefix of the input holds on that
/// prefix alone.
pub fn shorter_input_of_start()
    ensures { (rules : List Rule) (start : ℕ) (x y : List ℕ) (k : ℕ) (o : Outcome) →
        k < length x → RuleGives rules start (x ++ y) o k → RuleGives rules start x o k }
{}

/// States that every expression that stands in a rule's body of a sound grammar gives an outcome at every position of
/// the input.
pub fn some_outcome()
    ensures { (g : Grammar) (x : List ℕ) (e : Pattern) (p : ℕ) →
        IsSoundGrammar g → StandsIn (rules_of g.rules) e → p ≤ length x → (o : Outcome) × (k : ℕ)
        × Gives (rules_of g.rules) x e p o k }
{}

/// States that the start rule of a sound grammar gives an outcome on every input.
pub fn some_outcome_of_start()
    ensures { (g : Grammar) (x : List ℕ) →
        IsSoundGrammar g → (o : Outcome) × (k : ℕ) × RuleGives (rules_of g.rules) g.start x o k }
{}
