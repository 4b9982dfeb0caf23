use super::*;

#[test]
fn a_script_is_read(rt: HostRuntime) {
    let text =
        "# all of them\nspawn main\r\nrun 010\nedit list traits\n x = ( 1 ).\n\nend\nstack\nadvisor 0";
    let script = read_script(rt.alloc(), text.as_bytes()).expect(&rt, "a script");
    assert!(rt; script.as_slice().len() == 5);
    match &script.as_slice()[2] {
        Command::Edit { path, text } => {
            assert!(rt; path.as_slice().len() == 2);
            assert!(rt; text.as_slice() == " x = ( 1 ).\n\n".as_bytes());
        }
        _ => assert!(rt; false),
    }
}

#[test]
fn a_line_that_is_no_command_is_named(rt: HostRuntime) {
    let refused = read_script(rt.alloc(), "spawn main\nedit x\nrun 1\n".as_bytes());
    match refused {
        Ok(_) => assert!(rt; false),
        Err(why) => assert!(rt; why == ScriptErr::BadCommand(2)),
    }
}

#[test]
fn a_line_is_written(rt: HostRuntime) {
    let mut line = Line::open(rt.alloc()).expect(&rt, "room");
    line.put(&LineText::Out(b"a\\\x7f"));
    assert!(rt; line.bytes() == "out a\\\\\\x7f\n".as_bytes());
    line.put(&LineText::Fixed("refused past"));
    assert!(rt; line.bytes() == "refused past\n".as_bytes());
}
