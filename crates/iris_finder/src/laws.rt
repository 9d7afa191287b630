//! Laws of the definitions. Each function does nothing, and its clauses are the laws.
ghost use Rattle.std.specs.Prelude.{◌≡◌, ◌↔◌, ℕ, List, Some};
ghost use Rattle.iris_base.specs.declared.name.Label.{Label};
ghost use Rattle.iris_base.specs.Forms.{IsKind, IsId};
ghost use Rattle.iris_tree.specs.Attrs.{Pairs};
ghost use Rattle.iris_json.specs.declared.find.Offer.{Offer};
ghost use Rattle.iris_xpath.specs.Trees.{named};
ghost use Rattle.iris_xpath.specs.Told.{Found};
ghost use Rattle.iris_finder.specs.Tariff.{Terms, Say, terms_of};
ghost use Rattle.iris_finder.specs.Offers.{AreRanked, ranked};
ghost use Rattle.iris_finder.specs.Question.{HasKinds, query_text, query_steps};

/// The tariff of a block is what each of its attributes tells.
pub fn tariff_reads_in_one_way()
    ensures { (attrs : Pairs) (t : Terms) → (terms_of attrs ≡ Some t) ↔ Say attrs t }
{}

/// Ranked offers are the same offers, by price and then by name, and they have no other such order.
pub fn offers_are_ranked()
    ensures ranked { (offers : List Offer) → AreRanked offers (ranked offers) }
    ensures once { (offers ordered : List Offer) → AreRanked offers ordered → ordered ≡ ranked offers }
{}

/// In a city with these kinds the text of the finder's query is a query, within all limits, and says what
/// it is meant to.
pub fn question_is_a_query()
    ensures { (kinds : List (List ℕ)) (top : Label) (hood : List ℕ) → IsKind top.kind → IsId top.id → IsId hood → HasKinds kinds top → Found (named kinds) (query_text top hood) (query_steps top hood) }
{}
