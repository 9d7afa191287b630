//! The calls of `iris_json` on lines of a script and of a run, and on zones, each once.

use iris_fragment::{Level, Status};
use iris_json::{
    Find, Line, LineError, LineWhy, Offer, Out, Summary, Which, Why, Zone, ZoneError, read_changes,
    read_line, write_out,
};
use iris_tree::{AgentId, Id, Name, Sequence, State, read_name};
use std::alloc::Global;
use std::str;
use std::test::Fail;

// Whether a line is refused so.
fn refuses(alloc: Global, line: &str, error: LineError) -> bool {
    match read_line(alloc, line.as_bytes()) {
        Ok(_) => false,
        Err(refusal) => refusal == error,
    }
}

#[test]
fn lines_that_are_refused(rt: HostRuntime) -> Result<(), Fail> {
    let alloc = rt.alloc();
    let lines = [
        (r#"{"do":"settle","at":0}"#, LineWhy::Shape),
        (
            r#"{"do":"query","query":"/a","bound":null}"#,
            LineWhy::Shape,
        ),
        (r#"{"do":"give","name":"?","to":1}"#, LineWhy::Shape),
        (
            r#"{"do":"find","hood":"","arrive":-1,"stay":1,"top":1}"#,
            LineWhy::Name,
        ),
        (
            r#"{"do":"evict","agent":"B","name":"city-o"}"#,
            LineWhy::Name,
        ),
        (
            r#"{"do":"find","hood":"n","arrive":4102444800001,"stay":1,"top":1}"#,
            LineWhy::Number,
        ),
        (r#"{"do":"deliver","post":1.0}"#, LineWhy::Number),
        (
            r#"{"do":"update","name":"city-o","no":0,"change":[]}"#,
            LineWhy::Number,
        ),
        (
            r#"{"do":"update","name":"city-o","no":1,"change":[]}"#,
            LineWhy::Change,
        ),
    ];
    for (line, why) in lines {
        assert!(rt; refuses(alloc, line, LineError::BadLine { why }));
    }
    assert!(rt; refuses(alloc, "{", LineError::NotJson));
    Ok(())
}

#[test]
fn a_question_for_parking(rt: HostRuntime) -> Result<(), Fail> {
    let alloc = rt.alloc();
    let line = r#"{"do":"find","hood":"n","arrive":1709627400000,"stay":90,"top":3,"bound":30000}"#;
    let expected = Find {
        hood: Id::new("n")?,
        arrive: 1_709_627_400_000,
        stay: 90,
        top: 3,
        bound: Some(30_000),
    };
    let Line::Find(find) = read_line(alloc, line.as_bytes())? else {
        assert!(rt; false);
        return Ok(());
    };
    assert_eq!(rt; find, expected);
    assert_eq!(rt; read_changes(alloc, r#"[["drop","free"]]"#)?.len(), 1);
    Ok(())
}

// Whether a line is written so.
fn shows(alloc: Global, out: &Out, text: &str) -> Result<bool, Fail> {
    Ok(str::from_utf8(&write_out(alloc, out)?)? == text)
}

fn block(alloc: Global) -> Result<Name, Fail> {
    Ok(read_name(alloc, "block-1.city-o")?)
}

#[test]
fn posts(rt: HostRuntime) -> Result<(), Fail> {
    let alloc = rt.alloc();
    let to = AgentId::new("b")?;
    let mut states = Sequence::new(alloc);
    for state in [State::At(0), State::Seek(1), State::Test(2), State::Whole] {
        states.push(state)?;
    }
    let ask = Out::Ask {
        ask: 4,
        level: Level::Ids,
        name: block(alloc)?,
        post: 7,
        states,
        to,
    };
    let text =
        r#"{"ask":4,"kind":"ask","level":"ids","name":"block-1.city-o","post":7,"states":["at 0","seek 1","test 2","whole"],"to":"b"}"#;
    assert!(rt; shows(alloc, &ask, text)?);
    let reply = Out::Reply {
        ask: 4,
        pieces: 2,
        post: 8,
        to,
    };
    let text = r#"{"ask":4,"kind":"reply","pieces":2,"post":8,"to":"b"}"#;
    assert!(rt; shows(alloc, &reply, text)?);
    Ok(())
}

#[test]
fn outcomes(rt: HostRuntime) -> Result<(), Fail> {
    let alloc = rt.alloc();
    let mut offers = Sequence::new(alloc);
    offers.push(Offer {
        name: block(alloc)?,
        price: 900,
    })?;
    let offers = Out::Offers {
        cites: Sequence::new(alloc),
        newest: true,
        offers,
        request: 3,
    };
    let text = r#"{"cites":[],"newest":true,"offers":[["block-1.city-o",900]],"request":3}"#;
    assert!(rt; shows(alloc, &offers, text)?);
    let summary = Out::Summary(Summary {
        accepted: 1,
        answered: 2,
        asks: 3,
        bytes: 4,
        moves: 5,
        opened: 6,
        posts: 7,
        refused: 8,
    });
    let text =
        r#"{"accepted":1,"answered":2,"asks":3,"bytes":4,"moves":5,"open":6,"posts":7,"refused":8}"#;
    assert!(rt; shows(alloc, &summary, text)?);
    Ok(())
}

#[test]
fn refusals_and_ends(rt: HostRuntime) -> Result<(), Fail> {
    let alloc = rt.alloc();
    let lines = [
        (
            Out::NoSuchNode { request: None },
            r#"{"refused":"no such node"}"#,
        ),
        (
            Out::NotHeld {
                status: Some(Status::IdComplete),
                request: 1,
            },
            r#"{"refused":"not held","request":1,"status":"id-complete"}"#,
        ),
        (
            Out::Ended {
                line: 1,
                why: Why::Twin,
                node: Some(2),
            },
            r#"{"ended":3,"line":1,"node":2,"why":"twin"}"#,
        ),
        (
            Out::Limit {
                count: 200_000,
                which: Which::Posts,
            },
            r#"{"count":200000,"ended":7,"which":"posts"}"#,
        ),
    ];
    for (out, text) in &lines {
        assert!(rt; shows(alloc, out, text)?);
    }
    Ok(())
}

#[test]
fn arrivals(rt: HostRuntime) -> Result<(), Fail> {
    let alloc = rt.alloc();
    for (zone, minute) in [("UTC0", 510), ("EST5EDT,M3.2.0,M11.1.0", 210)] {
        let arrival = Zone::read(alloc, zone)?.arrival(1_709_627_400_000);
        assert_eq!(rt; arrival.weekday, 1);
        assert_eq!(rt; arrival.minute, minute);
    }
    match Zone::read(alloc, "UTC") {
        Ok(_) => assert!(rt; false),
        Err(error) => assert_eq!(rt; error, ZoneError::BadZone),
    }
    Ok(())
}
