// The lists as they run.

use super::instances::definitions_are_inhabited;
use super::lists::{mend_week, told_apart};
use bakery::SHEET;
use sheet::{Granted, Refusal};

#[test]
fn a_sheet_consults_its_values(rt: HostRuntime) {
    let mut valued = [Ok(Granted::Accepted); 12];
    let mut free = [Ok(Granted::Accepted); 12];
    told_apart(&mut valued, &mut free);
    assert_eq!(rt; valued[3], Ok(Granted::Accepted));
    assert_eq!(rt; valued[4], Err(Refusal::Offending));
    assert_eq!(rt; valued[10], Err(Refusal::RootOpen));
    assert_eq!(rt; valued[11], Ok(Granted::Accepted));
    assert_eq!(rt; free[4], Ok(Granted::Accepted));
    assert_eq!(rt;
        free[10],
        Ok(Granted::Passed {
            root: SHEET,
            events: 9
        })
    );
}

#[test]
fn a_correction_comes_before_the_lock(rt: HostRuntime) {
    let mut late = [Ok(Granted::Accepted); 17];
    let mut mended = [Ok(Granted::Accepted); 21];
    mend_week(&mut late, &mut mended);
    assert_eq!(rt; late[14], Err(Refusal::Offending));
    assert_eq!(rt;
        late[16],
        Ok(Granted::Passed {
            root: SHEET,
            events: 14
        })
    );
    assert_eq!(rt; mended[12], Ok(Granted::Accepted));
    assert_eq!(rt;
        mended[20],
        Ok(Granted::Passed {
            root: SHEET,
            events: 19
        })
    );
    assert!(rt; definitions_are_inhabited());
}
