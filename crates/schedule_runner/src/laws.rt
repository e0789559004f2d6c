// What the definition of schedule texts gives each text.
ghost use Rattle.std.specs.Prelude.{◌≡◌, ◌⊎◌, ℕ, List};
ghost use Rattle.schedule_runner.specs.declared.schedule.ScheduleLine.{ScheduleLine};
ghost use Rattle.schedule_runner.specs.ScheduleText.{ReadsAs, IsFirstBad};

/// A text reads as a schedule, or a line of it is the first that isn't of the form: it is one of
/// these, not both, and with one schedule and one line.
pub fn a_text_reads_or_has_a_bad_line()
    ensures one_schedule { (text : List ℕ) (all others : List ScheduleLine) →
        ReadsAs text all → ReadsAs text others → all ≡ others }
    ensures one_line { (text : List ℕ) (m n : ℕ) → IsFirstBad text m → IsFirstBad text n → m ≡ n }
    ensures not_both { (text : List ℕ) (all : List ScheduleLine) (n : ℕ) →
        ReadsAs text all → ¬ IsFirstBad text n }
    ensures an_answer { (text : List ℕ) →
        ((all : List ScheduleLine) × ReadsAs text all) ⊎ ((n : ℕ) × IsFirstBad text n) }
{}
