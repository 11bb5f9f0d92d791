//! Laws of evaluations that the byte at their position decides, and of iterations of a repetition over such bytes.
ghost use Rattle.std.specs.Prelude.{◌≡◌, ℕ, suc, ◌+◌, ◌<◌, ◌≤◌, max, Bool, true, List, [], ◌++◌, length};
ghost use Rattle.std.specs.Prelude.{slice_get, Some};
ghost use Rattle.pegread.specs.Pattern.{Rule};
ghost use Rattle.pegread.specs.PegViews.{rules_of};
ghost use Rattle.pegnodes.specs.ByByte.{ByByte, AreIterations};
ghost use Rattle.gramcheck.specs.Grammar.{Grammar, IsSoundGrammar};
ghost use Rattle.pegnodes.specs.Nodes.{Shape, Star, shapes_of};
ghost use Rattle.gramcheck.specs.Outcome.{Event, Takes};
ghost use Rattle.gramcheck.specs.Sound.{IsRanked};
ghost use Rattle.pegnodes.specs.declared.by_byte.ByteVerdict.{ByteVerdict};
ghost use Rattle.pegnodes.specs.declared.by_byte.ByteVerdict.TheVariants.{Stays};
ghost use Rattle.memo.specs.declared.found.Found.{Found};
ghost use Rattle.memo.specs.declared.found.Found.TheVariants.{Took};
ghost use Rattle.pegmatch.specs.KeptEvents.{SpellsSome};
ghost use Rattle.pegmatch.specs.Visits.{NodeGives};
ghost use Rattle.memo.specs.KeyLog.{tasks_of, row_of, position_of};
ghost use Rattle.memo.specs.Parts.{IsIn};
ghost use Rattle.memo.specs.declared.key_log.Stored.{Stored};
ghost use Rattle.memo.specs.declared.task.MatchTask.{MatchTask};
ghost use Rattle.memo.specs.declared.task.MatchTask.TheVariants.{Eval};
ghost use Rattle.packrat.specs.ByteGives.{found_by, GivesBy, StoresItself, ComesWith, iterations_on};
ghost use Rattle.packrat.specs.ByteGives.{operands_on, iterations_closed, AreFresh, RepeatsTo};
ghost use Rattle.pegnodes.specs.KeyMarks.{AreMarks};
ghost use Rattle.packrat.specs.MachineSteps.{Level, Asks, Works, store};
ghost use Rattle.packrat.specs.TaskGives.{TaskGives};
ghost use Rattle.packrat.specs.TaskSteps.{TaskSteps};

/// States that an evaluation that the byte at its position decides gives just that, without events. Its evaluation
/// stores nothing but itself, and begins as many evaluations as were counted, at positions up to the next one.
pub fn one_byte_decides()
    ensures gives { (rules : List Rule) (start : ℕ) (nodes : List Shape) (bodies ranks x : List ℕ) →
        IsRanked rules start nodes bodies ranks → (marks : ℕ → Bool) (tails : ℕ → ℕ → Bool) (b n p c : ℕ)
        (v : ByteVerdict) → ByByte nodes bodies marks tails b n v c → slice_get x p ≡ Some b
        → SpellsSome rules nodes n →
        GivesBy rules nodes bodies x n p v }
    ensures found { (g : Grammar) (x : List ℕ) (more : Bool) → IsSoundGrammar g →
        (marks : ℕ → Bool) (tails : ℕ → ℕ → Bool) (b n p c : ℕ) (v : ByteVerdict) →
        ByByte (shapes_of g.nodes) g.bodies marks tails b n v c → slice_get x p ≡ Some b →
        SpellsSome (rules_of g.rules) (shapes_of g.nodes) n → (more ≡ true → p + 1 < length x) →
        TaskGives g x more (Eval n p) (found_by v p) }
    ensures stores { (rules : List Rule) (start : ℕ) (nodes : List Shape) (bodies ranks x : List ℕ) →
        IsRanked rules start nodes bodies ranks → (marks : ℕ → Bool) (tails : ℕ → ℕ → Bool) (b n p c : ℕ)
        (v : ByteVerdict) → ByByte nodes bodies marks tails b n v c → slice_get x p ≡ Some b
        → SpellsSome rules nodes n →
        StoresItself rules nodes bodies x marks tails (Eval n p) c }
    ensures steps { (rules : List Rule) (start : ℕ) (nodes : List Shape) (bodies ranks x : List ℕ) →
        IsRanked rules start nodes bodies ranks → (root : ℕ) → slice_get bodies start ≡ Some root →
        (marks : ℕ → Bool) (tails : ℕ → ℕ → Bool) → AreMarks start nodes bodies marks tails → (b n p c : ℕ)
        (v : ByteVerdict) → ByByte nodes bodies marks tails b n v c → slice_get x p ≡ Some b
        → SpellsSome rules nodes n →
        (levels : List (Level MatchTask)) (stored begun : List MatchTask)
        → (marks n ≡ true → IsIn (Eval n p) stored → ⊥) →
        ComesWith rules nodes bodies x marks tails
        (Asks (Eval n p) (record { levels = levels; stored = stored; begun = begun }))
        (λ front. Works (record {
          levels = levels;
          stored = store MatchTask (marks n) (Eval n p) stored;
          begun = front ++ begun;
        })) (p + 1) c }
{}

/// States how the machine iterates a repetition over bytes that decide that its operand takes each of them. From the
/// repetition at the first byte it comes to the repetition after the last one, with a level for each iteration. It
/// stores the operand's evaluations if the operand is a key, and nothing else. It begins as many evaluations as were
/// counted, at positions up to the end of the last iteration.
pub fn iterations_run()
    ensures { (rules : List Rule) (start : ℕ) (nodes : List Shape) (bodies ranks x : List ℕ) →
        IsRanked rules start nodes bodies ranks → (root : ℕ) → slice_get bodies start ≡ Some root →
        (marks : ℕ → Bool) (tails : ℕ → ℕ → Bool) → AreMarks start nodes bodies marks tails → (s k a n c : ℕ) →
        slice_get nodes s ≡ Some (Star k) → SpellsSome rules nodes s →
        AreIterations nodes bodies x marks tails k a n c →
        (levels : List (Level MatchTask)) (stored begun : List MatchTask) → AreFresh (marks s) s a n stored →
        AreFresh (marks k) k a n stored →
        ComesWith rules nodes bodies x marks tails
        (Asks (Eval s a) (record { levels = levels; stored = stored; begun = begun }))
        (λ front. Asks (Eval s (a + n)) (record {
          levels = iterations_on s k a n levels;
          stored = operands_on (marks k) k a n stored;
          begun = front ++ begun;
        })) (a + n) c }
{}

/// States that the levels of iterations that bytes decide close one after the other. Each stores its evaluation if the
/// repetition is a key.
pub fn iterations_close()
    ensures { (rules : List Rule) (start : ℕ) (nodes : List Shape) (bodies ranks x : List ℕ) →
        IsRanked rules start nodes bodies ranks → (root : ℕ) → slice_get bodies start ≡ Some root →
        (marks : ℕ → Bool) (tails : ℕ → ℕ → Bool) → AreMarks start nodes bodies marks tails → (s k a n c : ℕ) →
        slice_get nodes s ≡ Some (Star k) → SpellsSome rules nodes s →
        AreIterations nodes bodies x marks tails k a n c →
        (levels : List (Level MatchTask)) (stored begun : List MatchTask) →
        TaskSteps rules nodes bodies x marks tails
        (Works (record { levels = iterations_on s k a n levels; stored = stored; begun = begun }))
        (Works (record { levels = levels; stored = iterations_closed (marks s) s a n stored; begun = begun })) }
{}

/// States that a repetition takes from each position of iterations that bytes decide what it takes after them, with the
/// same events.
pub fn iterations_give()
    ensures gives { (rules : List Rule) (start : ℕ) (nodes : List Shape) (bodies ranks x : List ℕ) →
        IsRanked rules start nodes bodies ranks → (marks : ℕ → Bool) (tails : ℕ → ℕ → Bool) (s k a n c : ℕ) →
        slice_get nodes s ≡ Some (Star k) → SpellsSome rules nodes s →
        AreIterations nodes bodies x marks tails k a n c → (q looked : ℕ) (events : List Event) →
        NodeGives rules nodes bodies x s (a + n) (Takes q events) looked → (i : ℕ) → i ≤ n →
        RepeatsTo rules nodes bodies x s (a + i) q events (max looked (a + n)) }
    ensures found { (g : Grammar) (x : List ℕ) (more : Bool) → IsSoundGrammar g →
        (marks : ℕ → Bool) (tails : ℕ → ℕ → Bool) (s k a n c : ℕ) →
        slice_get (shapes_of g.nodes) s ≡ Some (Star k) → SpellsSome (rules_of g.rules) (shapes_of g.nodes) s →
        AreIterations (shapes_of g.nodes) g.bodies x marks tails k a n c → (f : Found) →
        (more ≡ true → a + n < length x) → TaskGives g x more (Eval s (a + n)) f → (i : ℕ) → i ≤ n →
        TaskGives g x more (Eval s (a + i)) f }
{}

/// States how a repetition ends after iterations that bytes decide, if the next byte decides that it succeeds without
/// that byte. It takes the bytes of the iterations, without events. The machine comes to its end there. It has then
/// stored its evaluations at all these positions if it is a key, those of the operand if that is one, and nothing else.
pub fn iterations_whole()
    ensures steps { (rules : List Rule) (start : ℕ) (nodes : List Shape) (bodies ranks x : List ℕ) →
        IsRanked rules start nodes bodies ranks → (root : ℕ) → slice_get bodies start ≡ Some root →
        (marks : ℕ → Bool) (tails : ℕ → ℕ → Bool) → AreMarks start nodes bodies marks tails → (s k a n c b d : ℕ) →
        slice_get nodes s ≡ Some (Star k) → SpellsSome rules nodes s →
        AreIterations nodes bodies x marks tails k a n c → slice_get x (a + n) ≡ Some b →
        ByByte nodes bodies marks tails b s Stays d →
        (levels : List (Level MatchTask)) (stored begun : List MatchTask) → AreFresh (marks s) s a (suc n) stored →
        AreFresh (marks k) k a n stored →
        ComesWith rules nodes bodies x marks tails
        (Asks (Eval s a) (record { levels = levels; stored = stored; begun = begun }))
        (λ front. Works (record {
          levels = levels;
          stored = iterations_closed (marks s) s a (suc n) (operands_on (marks k) k a n stored);
          begun = front ++ begun;
        })) ((a + n) + 1) (c + d) }
    ensures gives { (rules : List Rule) (start : ℕ) (nodes : List Shape) (bodies ranks x : List ℕ) →
        IsRanked rules start nodes bodies ranks → (marks : ℕ → Bool) (tails : ℕ → ℕ → Bool) (s k a n c b d : ℕ) →
        slice_get nodes s ≡ Some (Star k) → SpellsSome rules nodes s →
        AreIterations nodes bodies x marks tails k a n c → slice_get x (a + n) ≡ Some b →
        ByByte nodes bodies marks tails b s Stays d →
        RepeatsTo rules nodes bodies x s a (a + n) [] ((a + n) + 1) }
    ensures found { (g : Grammar) (x : List ℕ) (more : Bool) → IsSoundGrammar g →
        (marks : ℕ → Bool) (tails : ℕ → ℕ → Bool) (s k a n c b d : ℕ) →
        slice_get (shapes_of g.nodes) s ≡ Some (Star k) → SpellsSome (rules_of g.rules) (shapes_of g.nodes) s →
        AreIterations (shapes_of g.nodes) g.bodies x marks tails k a n c → slice_get x (a + n) ≡ Some b →
        ByByte (shapes_of g.nodes) g.bodies marks tails b s Stays d → (more ≡ true → (a + n) + 1 < length x) →
        TaskGives g x more (Eval s a) (Took (a + n)) }
{}

/// States that none of a node's evaluations is stored above a position that no stored key of the node reaches.
pub fn fresh_above_mark()
    ensures { (key : Bool) (m a n mark : ℕ) (stored : List Stored) →
        ((s : Stored) → IsIn s stored → row_of s.task ≡ m → position_of s.task < mark) → mark ≤ a →
        AreFresh key m a n (tasks_of stored) }
{}
