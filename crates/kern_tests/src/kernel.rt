use abs_kernel::{CallId, ROWS, args, name, served};
use psx_base::Table;
use std::process::Abort;
use std::test::Fail;

// The letter of a table, by which the calls are named.
fn letter(table: Table) -> &'static str {
    match table {
        Table::A => "A",
        Table::B => "B",
        Table::C => "C",
        Table::Sys => "Sys",
    }
}

#[test]
fn each_call_is_named_by_its_table_and_number(rt: HostRuntime) -> Result<(), Fail> {
    for (table, number, id, _, _) in ROWS {
        assert_eq!(rt;
            format!(in rt.alloc(); "{id:?}")?,
            format!(in rt.alloc(); "{}{number:02X}", letter(table))?
        );
    }
    Ok(())
}

#[test]
fn a_number_is_served_by_the_whole_of_it_and_its_table(rt: HostRuntime) -> Result<(), Fail> {
    for (table, number, id, _, _) in ROWS {
        assert!(rt; served(table, number) == Some(id));
        assert!(rt; served(table, number | 0x1000_0000) == None);
        assert!(rt; served(Table::Sys, number) == None);
    }
    assert!(rt; served(Table::A, 0x45) == None);
    assert!(rt; served(Table::B, 0x21) == None);
    assert!(rt; served(Table::C, 0x06) == None);
    Ok(())
}

#[test]
fn some_calls_have_the_arguments_and_names_of_the_public_tables(
    rt: HostRuntime,
) -> Result<(), Fail> {
    let calls = [
        (CallId::A06, 1, "exit"),
        (CallId::A18, 3, "strncmp"),
        (CallId::A1C, 2, "index"),
        (CallId::A26, 1, "tolower"),
        (CallId::A2B, 3, "memset"),
        (CallId::A2F, 0, "rand"),
        (CallId::A3A, 1, "_exit"),
        (CallId::B02, 3, "init_timer"),
        (CallId::B07, 2, "DeliverEvent"),
        (CallId::B08, 4, "OpenEvent"),
        (CallId::B17, 0, "ReturnFromException"),
        (CallId::B20, 2, "UnDeliverEvent"),
        (CallId::B3D, 1, "putchar"),
        (CallId::B3F, 1, "puts"),
        (CallId::C02, 2, "SysEnqIntRP"),
    ];
    for (id, arguments, text) in calls {
        assert_eq!(rt; args(id), arguments);
        assert_eq!(rt; name(id), text);
    }
    Ok(())
}
