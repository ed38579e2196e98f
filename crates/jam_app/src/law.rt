//! The law of refusals.
ghost use Rattle.std.specs.Prelude.{◌≡◌};
ghost use Rattle.jam_base.specs.Files.{Files};
ghost use Rattle.jam_app.specs.declared.answers.refusal.Refusal.{Refusal as AnyRefusal};
ghost use Rattle.jam_app.specs.Refusals.{IsRefusal, without_place};
ghost use Rattle.word_reader.specs.Requests.{Asked};

/// A request over the same files has at most one refusal, but for the place at which a text outside the
/// profile was left, and the construct that is named there.
pub fn one_refusal()
    ensures { (asked : Asked) (files : Files) (one other : AnyRefusal) → IsRefusal asked files one → IsRefusal asked files other → without_place one ≡ without_place other }
{}
