//! Laws of widths, of evaluations that are asked for once, of the cells that a few stored keys imply, and of the
//! machine's steps.
ghost use Rattle.std.specs.Prelude.{◌≡◌, ℕ, ◌+◌, ◌≤◌, Bool, List, [], length, slice_get, Some};
ghost use Rattle.pegread.specs.Pattern.{Rule};
ghost use Rattle.pegnodes.specs.Nodes.{Shape};
ghost use Rattle.gramcheck.specs.Outcome.{Outcome};
ghost use Rattle.gramcheck.specs.Sound.{IsRanked};
ghost use Rattle.memo.specs.Entries.{Entry};
ghost use Rattle.pegmatch.specs.Answers.{WasEnough};
ghost use Rattle.pegmatch.specs.Visits.{NodeGives, NodeTakes, Visits};
ghost use Rattle.memo.specs.Run.{total};
ghost use Rattle.memo.specs.declared.task.MatchTask.{MatchTask};
ghost use Rattle.memo.specs.declared.task.MatchTask.TheVariants.{Eval};
ghost use Rattle.packrat.specs.MachineSteps.{State, Works, held, start_at, IsGood};
ghost use Rattle.pegnodes.specs.KeyMarks.{AreMarks};
ghost use Rattle.packrat.specs.Offset.{Offset, IsAskedBy};
ghost use Rattle.packrat.specs.MatchTasks.{Leads, Kids, is_key};
ghost use Rattle.packrat.specs.TaskSteps.{TaskSteps};
ghost use Rattle.packrat.specs.View.{weight, AreStored, AreImplied, AreBegun, Evaluates};
ghost use Rattle.pegmatch.specs.VisitedCells.{AreVisitedCells};
ghost use Rattle.pegnodes.specs.Width.{Width};

/// States that a node of a width takes that many bytes wherever it succeeds.
pub fn one_width()
    ensures { (rules : List Rule) (start : ℕ) (nodes : List Shape) (bodies ranks x : List ℕ) →
        IsRanked rules start nodes bodies ranks → (n w p q : ℕ) → Width nodes bodies n w →
        NodeTakes rules nodes bodies x n p q → q ≡ p + w }
{}

/// States that a visited evaluation of a marked node is asked for by one evaluation: its asker's, at the fixed
/// distance.
pub fn asked_once()
    ensures { (rules : List Rule) (start : ℕ) (nodes : List Shape) (bodies ranks x : List ℕ) →
        IsRanked rules start nodes bodies ranks → (n d m q : ℕ) → Offset nodes bodies start n d m →
        Visits rules nodes bodies x start m q → IsAskedBy rules start nodes bodies x n d m q }
{}

/// States which cells follow if exactly the keys that are reached are stored: exactly the evaluations that are visited,
/// each once and with its outcome. They imply some cells if the window is long enough for the outcome of the start
/// rule's body. All lists of such cells have one length.
pub fn implied_cells()
    ensures every { (rules : List Rule) (start : ℕ) (nodes : List Shape) (bodies ranks x : List ℕ) (more : Bool) →
        IsRanked rules start nodes bodies ranks → (root : ℕ) → slice_get bodies start ≡ Some root →
        (marks : ℕ → Bool) (tails : ℕ → ℕ → Bool) → AreMarks start nodes bodies marks tails →
        (stored : List MatchTask) (cells : List Entry) →
        AreStored rules start nodes bodies x more marks tails root stored →
        AreImplied rules start nodes bodies x more marks tails stored cells →
        AreVisitedCells rules start nodes bodies x more cells }
    ensures some { (rules : List Rule) (start : ℕ) (nodes : List Shape) (bodies ranks x : List ℕ) (more : Bool) →
        IsRanked rules start nodes bodies ranks → (root : ℕ) → slice_get bodies start ≡ Some root →
        (marks : ℕ → Bool) (tails : ℕ → ℕ → Bool) → AreMarks start nodes bodies marks tails →
        (o : Outcome) (k : ℕ) → NodeGives rules nodes bodies x root 0 o k → WasEnough x more k →
        (stored : List MatchTask) → AreStored rules start nodes bodies x more marks tails root stored →
        (cells : List Entry) × AreImplied rules start nodes bodies x more marks tails stored cells }
    ensures count { (rules : List Rule) (start : ℕ) (nodes : List Shape) (bodies ranks x : List ℕ) (more : Bool) →
        IsRanked rules start nodes bodies ranks → (cs ds : List Entry) →
        AreVisitedCells rules start nodes bodies x more cs → AreVisitedCells rules start nodes bodies x more ds →
        length cs ≡ length ds }
{}

/// States that an evaluation that memoizes its keys stores exactly those that are reached, each once. It has begun as
/// many evaluations as there are cells that they imply. The cells are exactly the evaluations that are visited, each
/// once and with its outcome.
pub fn evaluated_once()
    ensures stored { (rules : List Rule) (start : ℕ) (nodes : List Shape) (bodies ranks x : List ℕ) (more : Bool) →
        IsRanked rules start nodes bodies ranks → (root : ℕ) → slice_get bodies start ≡ Some root →
        (marks : ℕ → Bool) (tails : ℕ → ℕ → Bool) → AreMarks start nodes bodies marks tails →
        (stored : List MatchTask) (begun : ℕ) →
        Evaluates rules start nodes bodies x more marks tails root stored begun →
        AreStored rules start nodes bodies x more marks tails root stored }
    ensures begun { (rules : List Rule) (start : ℕ) (nodes : List Shape) (bodies ranks x : List ℕ) (more : Bool) →
        IsRanked rules start nodes bodies ranks → (root : ℕ) → slice_get bodies start ≡ Some root →
        (marks : ℕ → Bool) (tails : ℕ → ℕ → Bool) → AreMarks start nodes bodies marks tails →
        (stored : List MatchTask) (begun : ℕ) →
        Evaluates rules start nodes bodies x more marks tails root stored begun →
        (o : Outcome) (k : ℕ) → NodeGives rules nodes bodies x root 0 o k → WasEnough x more k →
        AreBegun rules start nodes bodies x more marks tails stored begun }
{}

/// States that stored keys imply one list of cells.
pub fn one_view()
    ensures { (rules : List Rule) (start : ℕ) (nodes : List Shape) (bodies ranks x : List ℕ) (more : Bool) →
        IsRanked rules start nodes bodies ranks → (marks : ℕ → Bool) (tails : ℕ → ℕ → Bool) (stored : List MatchTask)
        (cs ds : List Entry) → AreImplied rules start nodes bodies x more marks tails stored cs →
        AreImplied rules start nodes bodies x more marks tails stored ds → cs ≡ ds }
{}

/// States that the machine ends with what an evaluation stores and begins, and that it comes to each such end.
pub fn steps_run()
    ensures run { (rules : List Rule) (nodes : List Shape) (bodies x : List ℕ) (more : Bool) (root start : ℕ)
        (marks : ℕ → Bool) (tails : ℕ → ℕ → Bool) (stored begun : List MatchTask) →
        TaskSteps rules nodes bodies x marks tails (start_at MatchTask (Eval root 0))
        (Works (record { levels = []; stored = stored; begun = begun })) →
        Evaluates rules start nodes bodies x more marks tails root stored
        (total MatchTask (Kids rules nodes bodies x) (is_key marks tails) weight begun) }
    ensures reach { (rules : List Rule) (start : ℕ) (nodes : List Shape) (bodies ranks x : List ℕ) (more : Bool) →
        IsRanked rules start nodes bodies ranks → (root : ℕ) → slice_get bodies start ≡ Some root →
        (marks : ℕ → Bool) (tails : ℕ → ℕ → Bool) → AreMarks start nodes bodies marks tails →
        (stored : List MatchTask) (count : ℕ) →
        Evaluates rules start nodes bodies x more marks tails root stored count →
        (begun : List MatchTask)
        × (total MatchTask (Kids rules nodes bodies x) (is_key marks tails) weight begun ≡ count)
        × TaskSteps rules nodes bodies x marks tails (start_at MatchTask (Eval root 0))
        (Works (record { levels = []; stored = stored; begun = begun })) }
{}

/// States what holds on the way. The tasks that were begun are reached, each once. Those of the levels are among them,
/// each once, and none of these is stored. No more evaluations were begun than there are visited ones.
pub fn steps_hold()
    ensures good { (rules : List Rule) (start : ℕ) (nodes : List Shape) (bodies ranks x : List ℕ) →
        IsRanked rules start nodes bodies ranks → (root : ℕ) → slice_get bodies start ≡ Some root →
        (marks : ℕ → Bool) (tails : ℕ → ℕ → Bool) → AreMarks start nodes bodies marks tails → (s : State MatchTask) →
        TaskSteps rules nodes bodies x marks tails (start_at MatchTask (Eval root 0)) s →
        IsGood MatchTask (Leads rules nodes bodies x) (Eval root 0) (is_key marks tails) (held MatchTask s) }
    ensures begun { (rules : List Rule) (start : ℕ) (nodes : List Shape) (bodies ranks x : List ℕ) (more : Bool) →
        IsRanked rules start nodes bodies ranks → (root : ℕ) → slice_get bodies start ≡ Some root →
        (marks : ℕ → Bool) (tails : ℕ → ℕ → Bool) → AreMarks start nodes bodies marks tails → (s : State MatchTask) →
        TaskSteps rules nodes bodies x marks tails (start_at MatchTask (Eval root 0)) s →
        (cells : List Entry) → AreVisitedCells rules start nodes bodies x more cells →
        total MatchTask (Kids rules nodes bodies x) (is_key marks tails) weight (held MatchTask s).begun
        ≤ length cells }
{}
