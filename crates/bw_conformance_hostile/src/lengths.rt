//! Texts that are as long or as deep as they may be, or longer.
use crate::calls::{Call, LAYOUTS, Reads, SCHEMA, table_file};
use crate::devices::ByteSink;
use bw_file::{FromRead, Layout, ToWrite};
use bw_model::{Fault, code};
use bw_shell::{answer, check_text, direct, load, plan_text};
use std::alloc::Global;
use std::process::Abort;
use std::test::Fail;

/// Returns a text, another one this many times, and an end.
fn repeat_text(
    alloc: Global,
    start: &str,
    part: &str,
    count: u32,
    end: &str,
) -> Result<String, Fail> {
    let mut text = String::new(alloc);
    text.push_str(start)?;
    for _ in 0..count {
        text.push_str(part)?;
    }
    text.push_str(end)?;
    Ok(text)
}

/// What every count begins with: 29 bytes.
const COUNT: &str = "SELECT COUNT(*) FROM t WHERE ";

#[test]
fn long_statements_are_refused_alike(rt: HostRuntime) -> Result<(), Fail> {
    let file = table_file(rt.alloc(), Layout::Planes)?;
    // what the statement begins with, what is repeated and how often, and the fault with its byte
    for (start, part, count, code, at) in [
        ("", "(", 65_536, code::SYNTAX, 0),
        (COUNT, "(", 65_507, code::NESTING, 129),
        ("", "NOT ", 16_384, code::SYNTAX, 0),
        (COUNT, "NOT ", 16_376, code::SYNTAX, 33),
        (COUNT, "x", 60_000, code::UNKNOWN_COLUMN, 29),
        (
            "SELECT COUNT(*) FROM ",
            "x",
            60_000,
            code::UNKNOWN_TABLE,
            21,
        ),
        (COUNT, "#", 65_507, code::CHARACTER, 29),
        ("", " ", 65_536, code::SYNTAX, 65_536),
        ("", "(", 65_537, code::STATEMENT_TOO_LONG, 65_536),
    ] {
        let sql = repeat_text(rt.alloc(), start, part, count, "")?;
        let sql = sql.as_str();
        for call in [Call::Direct(sql), Call::Answer(sql, None), Call::Plan(sql)] {
            let mut sink = ByteSink::without_failures(Vec::new(rt.alloc()));
            let told = call.make(rt.alloc(), Reads::WHOLE, &file, &mut sink);
            assert_eq!(rt; told, Err(Fault::at_byte(code, at)), "{start}{part}");
            assert_eq!(rt; sink.calls.made, 0, "{start}{part}");
        }
    }
    Ok(())
}

/// Checks that a statement has the same result over texts and over the files that are loaded from
/// them, and that a plan of it is accepted, if there is one.
fn check_answer(
    rt: &(impl Abort + AllocGlobal),
    schema: &str,
    csv: &str,
    sql: &str,
    text: &str,
) -> Result<(), Fail> {
    let (schema, csv, sql) = (schema.as_bytes(), csv.as_bytes(), sql.as_bytes());
    let mut to = ToWrite::new(Vec::new(rt.alloc()));
    let (mut texts, mut rows) = (FromRead::new(schema), FromRead::new(csv));
    direct(rt.alloc(), &mut texts, &mut rows, sql, &mut to)?;
    assert_eq!(rt; to.into_inner().as_slice(), text.as_bytes());
    for layout in LAYOUTS {
        let mut to = ToWrite::new(Vec::new(rt.alloc()));
        let (mut texts, mut rows) = (FromRead::new(schema), FromRead::new(csv));
        load(rt.alloc(), &mut texts, &mut rows, layout, &mut to)?;
        let file = to.into_inner();
        let mut to = ToWrite::new(Vec::new(rt.alloc()));
        let mut table = FromRead::new(file.as_slice());
        let _ = answer(rt.alloc(), &mut table, sql, None, &mut to)?;
        assert_eq!(rt; to.into_inner().as_slice(), text.as_bytes(), "{layout:?}");
    }
    let mut to = ToWrite::new(Vec::new(rt.alloc()));
    match plan_text(rt.alloc(), schema, sql, &mut to) {
        Ok(()) => {
            let _ = check_text(rt.alloc(), schema, sql, to.into_inner().as_slice())?;
        }
        Err(fault) => assert_eq!(rt; fault, Fault::new(code::NO_PROGRAM)),
    }
    Ok(())
}

#[test]
fn a_list_of_ten_thousand_numbers_is_answered(rt: HostRuntime) -> Result<(), Fail> {
    let mut sql = repeat_text(rt.alloc(), COUNT, "", 0, "a IN (0")?;
    for number in 1..10_000u32 {
        let item = format!(in rt.alloc(); ", {number}")?;
        sql.push_str(item.as_str())?;
    }
    sql.push_str(")")?;
    let csv = "a,b\n0,-10\n255,10\n7,\n7,NULL\n8,0\n";
    check_answer(&rt, SCHEMA, csv, sql.as_str(), "COUNT(*)\n5\n")
}

#[test]
fn sixty_four_columns_of_63_bits_are_answered(rt: HostRuntime) -> Result<(), Fail> {
    let alloc = rt.alloc();
    let mut schema = repeat_text(alloc, "TABLE w\n", "", 0, "")?;
    let mut heading = String::new(alloc);
    let mut rows = [String::new(alloc), String::new(alloc)];
    let mut sql = repeat_text(alloc, "SELECT COUNT(*) FROM w WHERE ", "", 0, "x0 >= 1")?;
    for i in 0..64u32 {
        let comma = if i > 0 { "," } else { "" };
        let least = if i < 63 { "9223372036854775807" } else { "0" };
        let column = format!(in alloc; "COLUMN x{i} 0 9223372036854775807\n")?;
        let name = format!(in alloc; "{comma}x{i}")?;
        let value = format!(in alloc; "{comma}9223372036854775807")?;
        let other = format!(in alloc; "{comma}{least}")?;
        let test = format!(in alloc; " AND x{i} > 9223372036854775806")?;
        schema.push_str(column.as_str())?;
        heading.push_str(name.as_str())?;
        rows[0].push_str(value.as_str())?;
        rows[1].push_str(other.as_str())?;
        sql.push_str(test.as_str())?;
    }
    let [all, not_all] = &rows;
    let csv = format!(in alloc; "{heading}\n{all}\n{not_all}\n")?;
    check_answer(
        &rt,
        schema.as_str(),
        csv.as_str(),
        sql.as_str(),
        "COUNT(*)\n1\n",
    )
}

#[test]
fn long_records_and_fields_are_checked(rt: HostRuntime) -> Result<(), Fail> {
    let sql = b"SELECT COUNT(*) FROM t WHERE a = 7".as_slice();
    // what the text begins with, what is repeated a million times, what it ends with, and the fault
    // at the first record
    for (start, part, end, fault) in [
        ("a,b\n0", ",0", "\n", Some(code::RECORD_LENGTH)),
        ("a,b\n", "9", ",0\n", Some(code::OUT_OF_RANGE)),
        ("a,b\n", "x", ",0\n", Some(code::NOT_A_NUMBER)),
        ("a,b\n", "0", "7,0\n", None),
    ] {
        let csv = repeat_text(rt.alloc(), start, part, 1_000_000, end)?;
        let expected = match fault {
            None => Ok(()),
            Some(code) => Err(Fault::at_record(code, 1)),
        };
        let mut schema = FromRead::new(SCHEMA.as_bytes());
        let mut rows = FromRead::new(csv.as_bytes());
        let mut to = ToWrite::new(Vec::new(rt.alloc()));
        let told = direct(rt.alloc(), &mut schema, &mut rows, sql, &mut to);
        assert_eq!(rt; told, expected, "{part}");
        let text = if fault.is_none() { "COUNT(*)\n1\n" } else { "" };
        assert_eq!(rt; to.into_inner().as_slice(), text.as_bytes(), "{part}");
        let mut schema = FromRead::new(SCHEMA.as_bytes());
        let mut rows = FromRead::new(csv.as_bytes());
        let mut to = ToWrite::new(Vec::new(rt.alloc()));
        let told = load(rt.alloc(), &mut schema, &mut rows, Layout::Planes, &mut to);
        assert_eq!(rt; told, expected, "{part}");
        assert_eq!(rt; to.into_inner().is_empty(), fault.is_some(), "{part}");
    }
    Ok(())
}
