//! Laws of the definitions. Each function does nothing, and its clause is the law.
ghost use Rattle.std.specs.Prelude.{◌≡◌, ℕ, true, List};
ghost use Rattle.iris_json.specs.declared.city.City.{City};
ghost use Rattle.iris_json.specs.declared.find.Arrival.{Arrival};
ghost use Rattle.iris_json.specs.declared.line.Line.{Line};
ghost use Rattle.iris_json.specs.declared.out.Out.{Out};
ghost use Rattle.iris_json.specs.Lines.{ReadsLine};
ghost use Rattle.iris_json.specs.CityLine.{ReadsCity};
ghost use Rattle.iris_json.specs.Out.{out_row, keys_rise};
ghost use Rattle.iris_json.specs.Zones.{IsArrival};

/// A text is one line at most.
pub fn text_is_one_line()
    ensures once { (bytes : List ℕ) (one other : Line) → ReadsLine bytes one → ReadsLine bytes other → one ≡ other }
{}

/// A text is the line of one city at most.
pub fn text_is_one_city()
    ensures once { (bytes : List ℕ) (one other : City) → ReadsCity bytes one → ReadsCity bytes other → one ≡ other }
{}

/// A moment is one arrival at most by the clocks of a zone.
pub fn moment_is_one_arrival()
    ensures once { (text : List ℕ) (ms : ℕ) (one other : Arrival) → IsArrival text ms one → IsArrival text ms other → one ≡ other }
{}

/// The keys of a line of a run stand in the order of their bytes, none of them twice.
pub fn keys_of_lines_rise()
    ensures { (line : Out) → keys_rise (out_row line) ≡ true }
{}
