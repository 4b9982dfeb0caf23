// Scripts: what begins activities and runs them, what is refused, and texts that are no scripts. The tables are as those
// of `tests`.

use crate::tests::agrees;
use std::test::Fail;

// Activities that begin, or are refused; the latest is the one that runs.
const SPAWNS: &str = "\
main = ( 3 _IntAdd: 4 ).~;run 1~spawn zork~spawn nil~spawn main~run 9~run 1~;refused no activity~refused notUnderstood~refused not a method~activity 1~done 7 at 4~refused ended~;0
main = ( 3 _IntAdd: 4 ).~;spawn main~run 1~spawn zork~run 1~;activity 1~stop at 1 line 10:21~refused notUnderstood~stop at 2 line 10:12~;0
a = ( | m = ( 1 ) | ).~b = ( | m = ( 2 ) | ).~p* = a.~q* = b.~;spawn m~run 1~;refused ambiguous~refused no activity~;0
a = ( | m = 1 | ).~b = ( | m = 2 | ).~p* = a.~q* = b.~;spawn m~run 1~;refused ambiguous~refused no activity~;0
a = ( | m = ( 1 ) | ).~b = ( | m = ( 2 ) | ).~p* = a.~q* = b.~m = ( 3 ).~;spawn m~run 9~;activity 1~done 3 at 2~;0
a = ( | m = ( x ). x = 7 | ).~p* = a.~;spawn m~run 9~;activity 1~done 7 at 2~;0
a = ( | m = ( self ) | ).~p* = a.~;spawn m~run 9~;activity 1~done lobby at 2~;0
x = 3.~y <- 4.~z.~up* = lobby.~;spawn x~spawn y~spawn z~spawn up~spawn lobby~run 1~;refused not a method~refused not a method~refused not a method~refused not a method~refused not a method~refused no activity~;0
m = ( [ 3 ] ).~main = ( 3 ).~;spawn m~run 1~spawn main~run 9~;activity 1~stop at 1 line 10:13~activity 2~done 3 at 3~;0
main: a = ( a ).~;spawn main~run 1~;refused notUnderstood~refused no activity~;0
main = ( 3 _IntAdd: 4 ).~;spawn main~spawn main~spawn main~spawn main~spawn main~run 9~;activity 1~activity 2~activity 3~activity 4~refused too many activities~done 7 at 4~;0
main = ( 3 _IntAdd: 4 ).~;spawn main~spawn main~spawn main~spawn main~spawn zork~;activity 1~activity 2~activity 3~activity 4~refused too many activities~;0
main = ( 3 _IntAdd: 4 ).~;spawn main~run 9~spawn main~run 9~spawn main~run 9~spawn main~run 9~spawn main~run 9~;activity 1~done 7 at 4~activity 2~done 7 at 8~activity 3~done 7 at 12~activity 4~done 7 at 16~refused too many activities~refused ended~;0
main = ( 3 _IntAdd: 4 ).~;spawn zork~spawn zork~spawn zork~spawn zork~spawn main~run 4~;refused notUnderstood~refused notUnderstood~refused notUnderstood~refused notUnderstood~activity 1~done 7 at 4~;0
f = ( 1 + 1 ).~g = ( 20 - 3 ).~;spawn f~run 1~spawn g~run 1~run 1~run 99~;activity 1~stop at 1 line 10:11~activity 2~stop at 2 line 11:12~stop at 3 line 11:10~done 17 at 8~;0
x <- 1.~f = ( x: 5 ).~g = ( x ).~;spawn g~run 9~spawn f~run 9~spawn g~run 9~;activity 1~done 1 at 2~activity 2~done lobby at 5~activity 3~done 5 at 7~;0
c8 = ( 5 ).~c7 = ( c8 ).~c6 = ( c7 ).~c5 = ( c6 ).~c4 = ( c5 ).~c3 = ( c4 ).~c2 = ( c3 ).~c1 = ( c2 ).~main = ( c1 ).~;spawn main~run 9~spawn c1~run 8~spawn c3~run 99~;activity 1~stop at 9 line 10:10~activity 2~stop at 17 line 10:10~activity 3~done 5 at 29~;0
main = ( 3 _IntAdd: 4 ).~;spawn main~run 9~run 1~run 0~spawn zork~run 1~;activity 1~done 7 at 4~refused ended~refused ended~refused notUnderstood~refused ended~;0";

// The lines of a script, and the first that is no command.
const SCRIPTS: &str = "\
main = ( 3 _IntAdd: 4 ).~;# all of it~spawn main~~run 3 ~run 0000000001\t \r~  ~;activity 1~stop at 3 line 10:23~done 7 at 4~;0
main = ( 3 _IntAdd: 4 ).~;spawn   main\r~run   4\r~;activity 1~done 7 at 4~;0
main = ( 3 _IntAdd: 4 ).~;#~~ ~;;0
main = ( 3 _IntAdd: 4 ).~;~;;0
main = ( 3 _IntAdd: 4 ).~;spawn main;activity 1~;0
main = ( 3 _IntAdd: 4 ).~;spawn main~run 1000000000;activity 1~done 7 at 4~;0
main = ( 3 _IntAdd: 4 ).~;spawn main~run 01000000000;activity 1~done 7 at 4~;0
main = ( 3 _IntAdd: 4 ).~;spawn main~run 1000000001;script refused line 2~;3
main = ( 3 _IntAdd: 4 ).~;spawn main~jump 3~;script refused line 2~;3
main = ( 3 _IntAdd: 4 ).~;spawn main~run~;script refused line 2~;3
main = ( 3 _IntAdd: 4 ).~;spawn main~run x~;script refused line 2~;3
main = ( 3 _IntAdd: 4 ).~;spawn main~run -1~;script refused line 2~;3
main = ( 3 _IntAdd: 4 ).~;spawn main~run 1 2~;script refused line 2~;3
main = ( 3 _IntAdd: 4 ).~;spawn main~run\t3~;script refused line 2~;3
main = ( 3 _IntAdd: 4 ).~; spawn main~;script refused line 1~;3
main = ( 3 _IntAdd: 4 ).~;~# two~spawn~;script refused line 3~;3
main = ( 3 _IntAdd: 4 ).~;spawn main~spawn main:~;script refused line 2~;3
main = ( 3 _IntAdd: 4 ).~;spawn +~;script refused line 1~;3
main = ( 3 _IntAdd: 4 ).~;spawn Main~;script refused line 1~;3
main = ( 3 _IntAdd: 4 ).~;edit lobby~f = ( 1 )~;script refused line 1~;3
main = ( 3 _IntAdd: 4 ).~;edit lobby~f = ( 1 )~end~jump~;script refused line 4~;3
main = ( 3 _IntAdd: 4 ).~;step~jump~;script refused line 2~;3
main = ( 3 _IntAdd: 4 ).~;spawn main~step~;activity 1~stop at 1 line 10:21~;0
main = ( 3 _IntAdd: 4 ).~;spawn main~run 1~units~run 9~;not built~;3
main = ( 3 _IntAdd: 4 ).~;spawn main~run 1~stack~run 9~;activity 1~stop at 1 line 10:21~frame 1 main 10:21 self lobby [3]~done 7 at 4~;0
main = ( 3 _IntAdd: 4 ).~;switch 1~spawn main~switch 1~switch 2~switch 0~;refused no such activity~activity 1~activity 1~refused no such activity~refused no such activity~;0
main = ( 3 _IntAdd: 4 ).~;spawn main~spawn main~run 2~switch 1~run 9~switch 2~run 9~switch 1~step~;\
activity 1~activity 2~stop at 2 line 10:12~activity 1~done 7 at 6~activity 2~done 7 at 8~activity 1~refused ended~;0
f = ( f ).~main = ( f ).~g = ( 3 _IntAdd: 4 ).~;spawn main~run 20~spawn g~run 2~switch 1~run 5~switch 2~run 9~switch 1~run 9999~;\
activity 1~stop at 20 line 10:7~activity 2~stop at 22 line 12:9~activity 1~stop at 27 line 10:7~activity 2~done 7 at 29~activity 1~error stackOverflow at 4099 line 10:7~;0
main = ( 3 _IntAdd: 4 ).~;continue 3~step~interrupt 1~;refused no activity~refused no activity~refused no activity~;0
main = ( 3 _IntAdd: 4 ).~;spawn main~continue 2~continue 2~;activity 1~stop at 2 line 10:12~stop at 2 line 10:12~;0
main = ( 3 _IntAdd: 4 ).~;spawn main~run 3~continue 2~continue 3~;activity 1~stop at 3 line 10:23~refused past~stop at 3 line 10:23~;0
main = ( 3 _IntAdd: 4 ).~;spawn main~continue 1000000000~continue 3~step~;activity 1~done 7 at 4~refused ended~refused ended~;0
main = ( 3 _IntAdd: 4 ).~;spawn main~interrupt 2~step~step~step~;activity 1~stop at 2 line 10:12~stop at 3 line 10:23~done 7 at 4~refused ended~;0
main = ( 3 _IntAdd: 4 ).~;finish 3~stack~;refused no activity~refused no activity~;0
main = ( 3 _IntAdd: 4 ).~;units~;not built~;3
main = ( 3 _IntAdd: 4 ).~;machine~;not built~;3
main = ( 3 _IntAdd: 4 ).~;advisor 0~advisor 3~advisor 2~advisor 2~advisor 1~advisor 1~advisor 0~;advisor 0~refused no such advisor~advisor 2~refused no such advisor~advisor 1~refused no such advisor~advisor 0~;0
main = ( 3 _IntAdd: 4 ).~;spawn main~run 1~advisor 1~step~advisor 1000000000~advisor 0~run 9~;activity 1~stop at 1 line 10:21~advisor 1~stop at 2 line 10:12~refused no such advisor~advisor 0~done 7 at 4~;0
main = ( 3 _IntAdd: 4 ).~;edit lobby~f = ( 1 )~end~;not built~;3";

#[test]
fn begins_activities(rt: HostRuntime) -> Result<(), Fail> {
    for row in SPAWNS.split('\n') {
        assert!(rt; agrees(rt.alloc(), row)?, "{row}");
    }
    Ok(())
}

#[test]
fn reads_scripts(rt: HostRuntime) -> Result<(), Fail> {
    for row in SCRIPTS.split('\n') {
        assert!(rt; agrees(rt.alloc(), row)?, "{row}");
    }
    Ok(())
}
