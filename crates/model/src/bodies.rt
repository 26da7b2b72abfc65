//! Laws of bodies.
ghost use Rattle.std.specs.Prelude.{◌≡◌};
ghost use Rattle.serde_json.specs.Data.{object};
ghost use Rattle.model.specs.Body.{Body, IsBody, body_text};
ghost use Rattle.model.specs.Profile.{IsTextOf};

/// The text of a body reads back as the body. So bodies of one text are one body.
pub fn texts_of_bodies_read_back()
    ensures reads_back { (body : Body) → IsBody body → IsTextOf (object body) (body_text body) }
    ensures once { (a b : Body) → IsBody a → IsBody b → body_text a ≡ body_text b → a ≡ b }
{}
