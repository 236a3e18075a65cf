//! Laws of the definitions.
ghost use Rattle.std.specs.Prelude.{◌≡◌, Result};
ghost use Rattle.office_model.specs.declared.refusal.Refusal.{Refusal};
ghost use Rattle.office_model.specs.declared.request.Request.{Request};
ghost use Rattle.http_stream.specs.Run.{MessageText};
ghost use Rattle.http_api.specs.Requests.{Asks};

/// A message asks one thing, or has one refusal.
pub fn one_request()
    ensures { (said : MessageText) (asked other : Result Request Refusal) → Asks said asked → Asks said other → asked ≡ other }
{}
