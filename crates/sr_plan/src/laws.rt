//! Laws of plans: functions that do nothing, and whose contracts are the laws.
ghost use Rattle.std.specs.Prelude.{ℕ, Bool, List, ◌∷◌, [], ◌++◌, ◌≡◌, IsTrue, false};
ghost use Rattle.sr_plan.specs.Plans.{Plan, Did, Stage, AllTasks, AllTasksIf, AreAnswered, GoBy, begun, plan_of, IsDue, stage_after, stage_of};
ghost use Rattle.sr_plan.specs.Laws.{DoesBeginning, AreOf, tasks_done};

/// What goes by the plan of a list does the list's tasks in order, up to one of them; and where nothing is left to do, all of them.
pub fn lists_are_done_in_order<T, A>()
    ensures { (tasks : List (ℕ × T)) (ds : List (Did T A)) → GoBy (begun (plan_of tasks)) ds → DoesBeginning T A tasks ds }
{}

/// What does a list's tasks in order, up to one of them, goes by its plan.
pub fn beginnings_go_by<T, A>()
    ensures { (tasks rest : List (ℕ × T)) (ds : List (Did T A)) → tasks ≡ tasks_done ds ++ rest → GoBy (begun (plan_of tasks)) ds }
{}

/// One thing more goes by a plan where it is due behind the others.
pub fn one_more_goes_by<T, A>()
    ensures due { (s : Stage T A) (ds : List (Did T A)) (d : Did T A) → GoBy s ds → IsDue (stage_after s ds) d → GoBy s (ds ++ d ∷ []) }
    ensures stage { (s : Stage T A) (ds : List (Did T A)) (d : Did T A) → stage_after s (ds ++ d ∷ []) ≡ stage_of (stage_after s ds) d }
{}

/// What holds of each task that a plan may come to holds of all that are done.
pub fn tasks_are_of_plan<T, A>()
    ensures { (test : T → Bool) (plan : Plan T A) (ds : List (Did T A)) → AllTasks (λ t. IsTrue (test t)) plan → GoBy (begun plan) ds
        → AreOf (λ t. IsTrue (test t)) ds }
{}

/// The same where answers are known to be such as they should be: so a fact of all answers of a run is one of all tasks that follow from
/// them.
pub fn tasks_are_of_plan_if<T, A>()
    ensures { (good : T → A → Bool) (test : T → Bool) (plan : Plan T A) (ds : List (Did T A))
        → AllTasksIf (λ t a. IsTrue (good t a)) (λ t. IsTrue (test t)) plan → GoBy (begun plan) ds
        → AreAnswered (λ t a. IsTrue (good t a)) (λ a. IsTrue false) ds → AreOf (λ t. IsTrue (test t)) ds }
{}
