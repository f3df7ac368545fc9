// Schedules read, unrolled and played, each call's line printed into a buffer.
use crate::checksum::Checksum;
use player::play_line;
use pool::Pool;

// The calls at the places, from no pool on: every byte that they print, and the record that they end with.
fn play(text: &[u8], places: &[u32], sum: &mut Checksum) {
    let mut pool = Pool::blank(0, 0, 0);
    let mut line = [0u8; 8192];
    for (k, place) in places.iter().enumerate() {
        let turn = play_line(text, *place as usize, k + 1, pool, &mut line);
        pool = turn.pool;
        sum.add_all(&line[..turn.written]);
    }
    sum.add_record(pool);
}

// The whole text, read and played so many times over.
fn played(text: &[u8], times: u64) -> u64 {
    let mut places = [0u32; 100000];
    let mut sum = Checksum(0);
    sum.add_all(text);
    for _ in 0..times {
        if let Ok(count) = schedule::unroll(text, &mut places)
            && let Some(calls) = places.get(..count)
        {
            play(text, calls, &mut sum);
        }
    }
    sum.0
}

// A round of 33 calls that ends as it began, 3,000 times: guard 0 is hired, posted on buffer 1 while worker 2 gives it up, stood down and fired.
#[unsafe(no_mangle)]
pub extern "C" fn engine_played_steps(times: u64) -> u64 {
    played(
        b"make 8 32 256
repeat 3
repeat 1000
hire 1
repeat 3
step 1
end
take 1
post 1 0 1
repeat 2
step 1
end
ask 1 1
give 2 1
repeat 7
step 2
end
ask 2 1
post 1 0 0
repeat 2
step 1
end
give 2
repeat 7
step 2
end
fire 1 0
repeat 2
step 1
end
ask 1 1
end
end
",
        times,
    )
}

// No worker 9 in a pool of 8: 99,900 times.
#[unsafe(no_mangle)]
pub extern "C" fn engine_played_refusals(times: u64) -> u64 {
    played(
        b"make 8 32 256
repeat 100
repeat 999
ask 9 1
end
end
",
        times,
    )
}

fn digit(n: usize) -> u8 {
    b'0' + (n % 10) as u8
}

// Question k.
fn question(k: usize) -> [u8; 10] {
    let b = 100 + k / 8 % 157;
    let mut ask = *b"ask 1 100\n";
    ask[4] = digit(1 + k % 8);
    ask[6] = digit(b / 100);
    ask[7] = digit(b / 10);
    ask[8] = digit(b);
    ask
}

// The longest text: 1,637 questions, each on a line of its own.
fn questions() -> [u8; 16384] {
    let mut text = [0u8; 16384];
    let (make, asks) = text.split_at_mut(14);
    make.copy_from_slice(b"make 8 32 256\n");
    for (k, ask) in asks.chunks_exact_mut(10).enumerate() {
        ask.copy_from_slice(&question(k));
    }
    text
}

#[unsafe(no_mangle)]
pub extern "C" fn engine_played_questions(times: u64) -> u64 {
    let text = questions();
    played(&text, times)
}
