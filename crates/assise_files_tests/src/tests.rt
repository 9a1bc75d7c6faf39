//! Rows of requests.
use crate::requests::Requests;
use assise_test_rows::wrong_rows;
use std::alloc::Global;
use std::process::Abort;

/// Sees that each row says what comes out, at one desk.
fn show(alloc: Global, rt: &impl Abort, rows: &str) {
    let mut desk = Requests::new();
    let wrong = wrong_rows(alloc, &mut desk, rows).expect(rt, "no memory");
    assert!(rt; wrong.is_empty(), "what comes out:\n{wrong}of\n{rows}");
}

// With two nodes and more a record leaves its log only once all nodes have it, and nobody asks for that here.
#[test]
fn a_full_log_makes_room(rt: HostRuntime) {
    show(
        rt.alloc(),
        &rt,
        "\
make 2 8 4; open 1; create 1 /f; often write 1 /f x; round; round => 0 1 0 0 0 0
make 1 8 4; open 1; create 1 /f; often write 1 /f x => 0 1 0 0
make 2 8 4; open 1 0 1; create 1 /f; often write 1 /f x; often write 1 /f x => 0 1 0 0 0
make 3 8 4; open 3 2; open 2 1; create 1 /f; often write 2 /f x; often write 1 /f x; read 2 0 9 /f => 0 1 2 0 0 0 1
",
    );
}

// The log takes 64 records, so a dsync stands between the 102 calls in front of the first listing.
#[test]
fn a_long_listing_comes_in_pages(rt: HostRuntime) {
    show(
        rt.alloc(),
        &rt,
        "\
make 1 64 8; open 1; mkdir 1 /d; files /d; list 1 /d; list 1 61 /d => 0 1 0 0 12261 of 100 7839 of 100
listed 0 61 103; listed 0 99 103; listed 0 100 103; entries; listed 0 0 102; listed 0 0 0; listed 0 0 105 => 7839 of 100 201 of 100 0 of 100 105 -302 of 100 -302 of 100 -302 of 100
list 1 99 /d; list 1 100 /d; list 1 101 /d; mkdir 1 /d/e; list 1 /; list 1 1 / => 201 of 100 0 of 100 0 of 100 0 2 of 1 0 of 1
",
    );
}

#[test]
fn what_is_asked_wrongly(rt: HostRuntime) {
    show(
        rt.alloc(),
        &rt,
        "\
open 1; stat 1 /; 0; 38; 37; make 0 8 4; make 17 8 4 => -301 -301 -302 -302 -302 -302 -302
make 1 7 4; make 1 4097 4; make 1 8; make 1 8 4097; stat 1 / => -302 -302 -302 -302 -301
make 2 8 4; open 3; open 1; open 2; stat 3 /; stat 1 a; stat 1 //; stat 1 /.. => 0 -108 1 2 -109 -201 -202 -203
rename 1 a //; rename 1 // a => -201 -202
create 1 /; rename 1 / /a; rename 1 /a b; stat 1 /a; create 1 /a; create 1 /a; list 1 /a => -2 -6 -201 -1 0 -2 -3 of 0
mkdir 1 /d; read 1 0 1 /d; create 1 /d/b; rmdir 1 /d; truncate 1 1048577 /a => 0 -4 0 -5 -7
fail 2; stat 2 /; fail 1; fail 2; back 1; back 2; crash 1; crash 1; stat 1 / => 0 -103 -107 -110 -110 0 0 -104 -104
",
    );
}

// A caller may keep a path in the desk over several calls: only what is read, names and lost calls come in its place.
#[test]
fn the_bytes_stay_but_for_an_answer_in_them(rt: HostRuntime) {
    show(
        rt.alloc(),
        &rt,
        "\
make 1 64 8; open 1; mkdir 1 /d; bytes /d; create 1 /d/f; bytes /d/f; stat 1 /d/f; bytes /d/f => 0 1 0 true 0 true 0 true
stat 1 /none; bytes /none; rename 1 /d/f /d/g; bytes /d/f/d/g; rename 1 a b; bytes ab => -1 true 0 true -201 true
write 1 /d/g hi; bytes /d/ghi; read 1 0 9 /d/g; bytes hi; fsync 1; legal; bytes hi => 0 true 2 true 0 1 true
",
    );
}

#[test]
fn lost_calls_of_nine_clients_have_room(rt: HostRuntime) {
    show(
        rt.alloc(),
        &rt,
        "\
make 2 64 8; open 1; open 1; open 1; open 1; open 1; open 1; open 1; open 1; open 1 => 0 1 2 3 4 5 6 7 8 9
mkdir 1 /a; mkdir 1 /b; mkdir 1 /c; mkdir 1 /d; mkdir 1 /e; mkdir 1 /f; mkdir 1 /g; mkdir 1 /h; mkdir 1 /i => 0 0 0 0 0 0 0 0 0
create 1 /a/f; create 2 /b/f; create 3 /c/f; create 4 /d/f; create 5 /e/f; create 6 /f/f; create 7 /g/f; create 8 /h/f; create 9 /i/f => 0 0 0 0 0 0 0 0 0
create 1 /a/g; create 2 /b/g; create 3 /c/g; create 4 /d/g; create 5 /e/g; create 6 /f/g; create 7 /g/g; create 8 /h/g; create 9 /i/g => 0 0 0 0 0 0 0 0 0
fail 1 => 108
",
    );
}

// An open is entry 1, a call entry 2. Client 2 stands on node 2.
#[test]
fn what_is_asked_of_a_cluster(rt: HostRuntime) {
    show(
        rt.alloc(),
        &rt,
        "\
make 2 64 8; open 1; open 2; home 1; home 2; home 3; standing 1; standing 2; standing 3; standing 0 => 0 1 2 1 2 -109 1 1 -109 -109
create 1 /f; write 1 0 /f hello; read 1 1 3 /f; list 1 /; entries; payload => 0 0 3 2 of 1 6 9
answered 1; replicated 1; answered 2; replicated 2; answered 3; replicated 3 => 4 0 0 0 -109 -109
dsync 1; answered 1; replicated 1; stat 1 /f; answered 1; replicated 1 => 0 5 5 5 6 6
truncate 1 2 /f; answered 1; replicated 1; crash 2; standing 2 => 0 7 6 0 2
phase 1; phase 2; phase 3; phase 0; fail 1; phase 1; standing 1; answered 1; replicated 1; legal => 1 1 -108 -108 12 2 3 7 7 1
back 1; phase 1; standing 1; open 1; standing 3; home 3 => 0 1 3 3 1 1
",
    );
}

// Client 1 loses its calls from 2 on: a change, an error, a read, and two changes. A directory is in the way then. What client 2 made
// again is lost with its own directory.
#[test]
fn what_is_lost_is_made_again(rt: HostRuntime) {
    show(
        rt.alloc(),
        &rt,
        "\
make 3 64 8; open 1; mkdir 1 /d; fsync 1; create 1 /d/f; create 1 /d/f; read 1 0 9 /d/f; write 1 0 /d/f hello; rename 1 /d/f /d/g; fail 1 => 0 1 0 0 0 -2 0 0 0 12
open 2; list 2 /d; redo 2 1 2; list 2 /d; read 2 0 9 /d/g; answered 2; legal => 2 0 of 0 0 2 of 1 5 6 1
mkdir 2 /d/f; redo 2 1 2; redo 2 1 5; redo 2 1 6; redo 2 1 7; redo 2 2; redo 9 1 2; redo 1 1 2 => 0 -2 -4 -3 0 0 -109 -103
fail 2; open 3; list 3 /d; redo 3 2; list 3 /d; read 3 0 9 /d/g; legal => 12 3 0 of 0 0 4 of 2 5 1
",
    );
}

// Node 2 has the file once it is synced.
#[test]
fn texts_are_printed_and_shown(rt: HostRuntime) {
    show(
        rt.alloc(),
        &rt,
        "\
history; make 1 8 8; page; open 1; history; page; bytes history 1; page 0 8; bytes 1; page 0 18; page 0 17 => -301 0 0 1 18 18 true 10 true 0 1
create 1 /f; page; history; page; bytes history 2; free; page => 0 18 44 44 true 0 0
make 2 8 8; open 1; create 1 /f; tree 2; page; bytes tree 0; dsync 1; tree 2; page 0 7; bytes /f file 0 => 0 1 0 6 6 true 0 16 9 true
fail 2; tree 2; tree 3; page 0 7 => 0 -110 -108 9
",
    );
}

// An optimistic client's fsync makes nothing safe, and its dsync all. A node that isn't there is told, and so is a number of no kind.
#[test]
fn what_a_cluster_is_set_to(rt: HostRuntime) {
    show(
        rt.alloc(),
        &rt,
        "\
make 2 64 8; open 1 0 1; create 1 /f; fsync 1; replicated 1; dsync 1; replicated 1 => 0 1 0 0 0 0 3
open 1 3; open 1 0 2; open 1 1; open 1 2 => -302 -302 2 3
hot 1 0; hot 1 4097; hot 3 1; hot 1 1; hot 2 4096; raise 3; raise 1; raise 2; raise 1 => -302 -302 -108 0 0 -108 0 0 -110
",
    );
}

// Client 2 made no sync. The new cluster's entries are an open, three calls that make the file, and a dsync.
#[test]
fn a_renewed_cluster_has_the_same_tree(rt: HostRuntime) {
    show(
        rt.alloc(),
        &rt,
        "\
make 2 8 4; open 1; mkdir 1 /d; create 1 /d/f; write 1 /d/f hello; open 2; rename 2 /d/f /d/g; renew 3 16 8; entries => 0 1 0 0 0 2 0 0 5
list 1 /; read 1 0 9 /d/g; bytes hello; stat 2 /d; home 1; replicated 1; open 3; stat 2 /d/g; legal => 2 of 1 5 true -109 1 6 2 5 1
renew 0 8 4; renew 17 8 4; renew 2 7 4; renew 2 8; entries; free; renew 2 8 4 => -302 -302 -302 -302 9 0 -301
",
    );
}

// A client lost a call with its node, and another crashed. Where node 2 isn't raised what node 1 sends waits, and so does a renewal.
#[test]
fn a_cluster_is_renewed_once_its_calls_are_safe(rt: HostRuntime) {
    show(
        rt.alloc(),
        &rt,
        "\
make 2 64 8; open 1; create 1 /kept; dsync 1; create 1 /lost; fail 1; open 2; mkdir 2 /d; crash 2; renew 1 8 1 => 0 1 0 0 0 12 2 0 0 0
list 1 /; phase 1; phase 2; standing 1; legal => 7 of 2 1 -108 1 1
make 2 64 8; open 1; create 1 /f; raise 1; renew 2 64 8; stat 1 /f; raise 2; renew 2 64 8; stat 1 /f => 0 1 0 0 -102 0 0 0 0
",
    );
}

// Node 1 alone has the client's records while its link loses all, so an fsync waits until nothing can be done: F2.
#[test]
fn what_goes_over_links(rt: HostRuntime) {
    show(
        rt.alloc(),
        &rt,
        "\
make 2 64 8; open 1; link 3 0; link 0 0; link 1 6; link 1 1; create 1 /f; dsync 1; replicated 1 => 0 1 -108 -108 -302 0 0 -102 0
link 1 0; dsync 1; replicated 1; link 1 4 30; link 1 5; link 1 3; link 1 2; legal => 0 0 2 0 0 0 0 1
",
    );
}
